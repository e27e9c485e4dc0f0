//! What is known of spaces, and where memory is accessed.

ghost use Rattle.std.specs.Prelude.{◌≡◌, IfOk, slice_get};
ghost use Rattle.std.specs.Option.{option_copied};
ghost use Rattle.pcode_model.specs.Spaces.{is_big as is_big_in, word_size as word_size_of};
ghost use Rattle.op_code.specs.Made.{address as address_in, address_of, name_of, offset_bytes as offset_bytes_of};

use bits_core::Memory;
use cmeaning::Expr;
use op_values::{address_node, constant};
use pcode_model::ranges::number_of;
use pcode_model::{Listing, Name, Space, SpaceKind, Varnode};
use std::alloc::Global;

fn space(listing: &Listing, number: u64) -> Option<&Space>
    ensures { option_copied result ≡ slice_get listing.now.spaces number }
{
    listing.spaces.get(number as usize)
}

/// Whether the byte at a word's offset is its most significant one.
pub(crate) fn is_big(listing: &Listing, number: u64) -> bool
    ensures { result ≡ is_big_in listing.now number }
{
    match space(listing, number) {
        Some(space) => space.big,
        None => false,
    }
}

/// A ram space by its name, and the first one without.
pub(crate) fn space_name(
    alloc: Global,
    listing: &Listing,
    number: u64,
) -> Result<Option<Name>, Memory>
    ensures { IfOk result (λ name. name ≡ name_of listing.now number) }
{
    if number as usize == number_of(SpaceKind::Ram, listing.spaces.as_slice()) {
        return Ok(None);
    }
    match space(listing, number) {
        Some(space) => Ok(Some(Name::from_slice(alloc, space.name.as_slice())?)),
        None => Ok(Some(Name::new(alloc))),
    }
}

/// The bytes of an offset in a space.
pub(crate) fn offset_bytes(listing: &Listing, number: u64) -> u8
    ensures { result ≡ offset_bytes_of listing.now number }
{
    match space(listing, number) {
        Some(space) => space.size,
        None => 0,
    }
}

fn word_size(listing: &Listing, number: u64) -> u8
    ensures { result ≡ word_size_of listing.now number }
{
    match space(listing, number) {
        Some(space) => space.word,
        None => 1,
    }
}

/// The byte address of an offset of so many bytes in a space.
pub(crate) fn address(
    alloc: Global,
    listing: &Listing,
    number: u64,
    bytes: u32,
    offset: Expr,
) -> Result<Expr, Memory>
    ensures { IfOk result (λ a. a ≡ address_in listing.now number bytes offset) }
{
    address_node(
        alloc,
        offset_bytes(listing, number),
        word_size(listing, number),
        bytes,
        offset,
    )
}

/// Where a direct range of memory lies.
pub(crate) fn direct_address(listing: &Listing, range: Varnode) -> Expr
    ensures { result ≡ address_of listing.now range }
{
    let bytes = offset_bytes(listing, u64::from(range.space));
    constant(u32::from(bytes), range.offset)
}
