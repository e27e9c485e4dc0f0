//! Where ops lead.

ghost use Rattle.std.specs.Prelude.{◌≡◌, ◌<◌, ◌^◌, length};
ghost use Rattle.pcode_model.specs.Places.{branch_place, next_instruction, next_place, relative_place};
ghost use Rattle.pcode_operands.specs.State.{place_of, places_of};

use instructions::relative_index;
use pcode_model::{Instruction, Varnode};
use pcode_operands::state::WidePlace;

/// Index 0 of the instruction that follows.
pub fn next_instruction(instruction: &Instruction) -> WidePlace
    ensures { place_of result ≡ next_instruction instruction.now }
{
    WidePlace {
        address: u128::from(instruction.address) + u128::from(instruction.length),
        index: 0,
    }
}

/// The next place after an index of an instruction.
pub fn next_spot(instruction: &Instruction, index: u32) -> WidePlace
    requires { length instruction.now.ops < 2 ^ 32 }
    ensures { place_of result ≡ next_place instruction.now index }
{
    let next = index as usize + 1;
    if next < instruction.ops.len() {
        WidePlace {
            address: u128::from(instruction.address),
            index: next as u32,
        }
    } else {
        next_instruction(instruction)
    }
}

// Where a relative branch leads. None where its index is below 0 or above the op count.
fn relative_spot(instruction: &Instruction, index: u32, count: Varnode) -> Option<WidePlace>
    requires { length instruction.now.ops < 2 ^ 32 }
    ensures { places_of result ≡ relative_place instruction.now index count }
{
    let ops = instruction.ops.len() as u128;
    match relative_index(index, count) {
        Some(target) if target < ops => Some(WidePlace {
            address: u128::from(instruction.address),
            index: target as u32,
        }),
        Some(target) if target == ops => Some(next_instruction(instruction)),
        _ => None,
    }
}

/// Where a branch at an index of an instruction to this destination leads.
pub fn branch_spot(instruction: &Instruction, index: u32, to: Varnode) -> Option<WidePlace>
    requires { length instruction.now.ops < 2 ^ 32 }
    ensures { places_of result ≡ branch_place instruction.now index to }
{
    if to.space == 0 {
        relative_spot(instruction, index, to)
    } else {
        Some(WidePlace {
            address: u128::from(to.offset),
            index: 0,
        })
    }
}
