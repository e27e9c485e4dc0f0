//! The canonical text, which stands for the listing that it was printed from.

ghost use Rattle.std.specs.Prelude.{◌≡◌, ◌≤◌, ◌-◌, ◌^◌, length, IfErr, IfOk};
ghost use Rattle.listing_print.specs.Printed.{text_of};
ghost use Rattle.pcodetext.specs.Meaning.{reading};
ghost use Rattle.pcodetext.specs.Reader.{IsFaultOf};
ghost use Rattle.listing_again.specs.Again.{HasText, IsCanonicalOf, StandsFor};

use bits_core::Memory;
use pcode_model::{Listing, Text};
use pcodetext::{TextFault, read_listing};
use std::alloc::Global;

/// The canonical text of a listing. Reading it gives the listing again, where any text stands for the listing.
pub fn print_listing(alloc: Global, listing: &Listing) -> Result<Text, Memory>
    ensures printed { IfOk result (λ text. text.items ≡ text_of listing.now) }
    ensures again { IfOk result (λ text. HasText listing.now → StandsFor text.items listing.now) }
{
    listing_print::print_listing(alloc, listing)
}

/// The canonical text of what a text stands for, or the first fault of the text's least faulty line.
pub fn canonical_text(alloc: Global, bytes: &[u8]) -> Result<Text, TextFault>
    requires { length bytes.now ≤ 2 ^ 32 - 2 }
    ensures good { IfOk result (λ text. IsCanonicalOf bytes.now text.items) }
    ensures bad { IfErr result (IsFaultOf (reading bytes.now)) }
{
    let listing = match read_listing(alloc, bytes) {
        Ok(listing) => listing,
        Err(fault) => return Err(fault),
    };
    match print_listing(alloc, &listing) {
        Ok(text) => Ok(text),
        Err(_) => Err(TextFault::Memory),
    }
}
