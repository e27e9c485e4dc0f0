//! What stands at an address and at a place of a listing, where a relative branch leads, and how functions are called.
#![tactic(auto)]

mod protos;
mod relative;

ghost use Rattle.std.specs.Prelude.{◌≡◌};
ghost use Rattle.std.specs.Option.{option_copied};
ghost use Rattle.pcode_model.specs.Places.{instruction_at, standing};
ghost use Rattle.pcode_model.specs.Flow.{AreApart};
ghost use Rattle.instructions.specs.Standing.{op_of};

use pcode_model::{Instruction, Listing, Op, Place};
pub use protos::{arguments, given, proto_called, result_range, returns};
pub use relative::relative_index;

/// The instruction that stands at the address, which may be past the end of every space.
pub fn instruction(listing: &Listing, address: u128) -> Option<&Instruction>
    requires { AreApart listing.now.code }
    ensures { option_copied result ≡ instruction_at listing.now address }
{
    let code = listing.code.as_slice();
    let mut low = 0;
    let mut high = code.len();
    while low < high {
        let middle = low + (high - low) / 2;
        let here = u128::from(code[middle].address);
        if here < address {
            low = middle + 1;
        } else if address < here {
            high = middle;
        } else {
            return Some(&code[middle]);
        }
    }
    None
}

/// The op that stands at the place.
pub fn op_at(listing: &Listing, place: Place) -> Option<&Op>
    requires { AreApart listing.now.code }
    ensures { option_copied result ≡ op_of (standing listing.now place) }
{
    match instruction(listing, u128::from(place.address)) {
        Some(instruction) => instruction.ops.get(place.index as usize),
        None => None,
    }
}
