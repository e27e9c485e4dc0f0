//! Where a frame's own accesses lie.

ghost use Rattle.std.specs.Prelude.{◌≡◌, ◌↔◌, IsTrue, Some};
ghost use Rattle.pcode_model.specs.declared.listing.Instruction.{Instruction};
ghost use Rattle.pcode_model.specs.Flow.{AreApart};
ghost use Rattle.pcode_model.specs.Places.{Does, standing, standing_of};
ghost use Rattle.pcode_model.specs.Spaces.{first_ram};
ghost use Rattle.pcode_model.specs.declared.frame.Frame.{Frame};
ghost use Rattle.pcode_run.specs.Run.{LiesInRam, accesses, lies_in_ram};

use instructions::instruction;
use pcode_model::ranges::number_of;
use pcode_model::{Frame, FrameAccess, Instruction, Listing, Op, Opcode, Place, SpaceKind};

// Whether an op is no LOAD or STORE, or one of the space with that number.
fn accesses_space(op: &Op, ram: usize) -> bool
    ensures { (i : Instruction) → result ≡ accesses ram (Does i op.now) }
{
    match op.code {
        Opcode::Load | Opcode::Store => op.input(0).offset == ram as u64,
        _ => true,
    }
}

// Whether what stands at an index of an instruction is no LOAD or STORE, or one of the space with that number.
fn accesses_at(instruction: &Instruction, index: u32, ram: usize) -> bool
    ensures { result ≡ accesses ram (standing_of (Some instruction.now) index) }
{
    match instruction.ops.get(index as usize) {
        Some(op) => accesses_space(op, ram),
        None => true,
    }
}

fn accesses_place(listing: &Listing, at: Place, ram: usize) -> bool
    requires { AreApart listing.now.code }
    ensures { result ≡ accesses ram (standing listing.now at) }
{
    match instruction(listing, u128::from(at.address)) {
        Some(instruction) => accesses_at(instruction, at.index, ram),
        None => true,
    }
}

fn lies(listing: &Listing, ram: usize, access: &FrameAccess) -> bool
    requires apart { AreApart listing.now.code }
    requires ram { ram ≡ first_ram listing.now }
    ensures { result ≡ lies_in_ram listing.now access.now }
{
    if access.argument == 0 {
        accesses_place(listing, access.place, ram)
    } else {
        true
    }
}

/// Whether each access of a frame that is a LOAD's or STORE's lies in the first ram space.
pub fn lies_in_ram(listing: &Listing, frame: &Frame) -> bool
    requires { AreApart listing.now.code }
    ensures { IsTrue result ↔ LiesInRam listing.now frame.now }
{
    let ram = number_of(SpaceKind::Ram, listing.spaces.as_slice());
    for access in frame.accesses.as_slice() {
        if !lies(listing, ram, access) {
            return false;
        }
    }
    true
}
