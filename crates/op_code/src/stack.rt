//! Words and memory above the stack pointer.

ghost use Rattle.std.specs.Prelude.{◌≡◌, IfOk};
ghost use Rattle.op_code.specs.Made.{above as above_of, above_stack as above_stack_of};

use crate::memory::address;
use crate::table::Table;
use crate::words::range_word;
use bits_core::{Binary, Memory};
use cmeaning::Expr;
use op_values::{binary_node, constant};
use pcode_model::ranges::number_of;
use pcode_model::{Listing, SpaceKind, Varnode};
use std::alloc::Global;

/// The word so many bytes above that of a range.
pub(crate) fn above(
    alloc: Global,
    listing: &Listing,
    table: &Table,
    range: Varnode,
    bytes: u32,
) -> Result<Expr, Memory>
    ensures { IfOk result (λ e. e ≡ above_of listing.now table.now range bytes) }
{
    let word = range_word(alloc, listing, table, range)?;
    if bytes == 0 {
        return Ok(word);
    }
    let size = range.size;
    let added = constant(size, u64::from(bytes));
    binary_node(alloc, Binary::Add, size, 0, size, word, added)
}

/// Where memory lies so many bytes above the stack pointer.
pub(crate) fn above_stack(
    alloc: Global,
    listing: &Listing,
    table: &Table,
    bytes: u32,
) -> Result<Expr, Memory>
    ensures { IfOk result (λ e. e ≡ above_stack_of listing.now table.now listing.now.stack bytes) }
{
    let Some(stack) = listing.stack else {
        return Ok(constant(1, 0));
    };
    let ram = number_of(SpaceKind::Ram, listing.spaces.as_slice()) as u64;
    let offset = above(alloc, listing, table, stack, bytes)?;
    address(alloc, listing, ram, stack.size, offset)
}
