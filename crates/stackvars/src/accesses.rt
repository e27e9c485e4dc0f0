// The register and unique ranges that the ops of blocks access: operands, outputs, and what calls and returns access
// besides.
ghost use Rattle.std.specs.Prelude.{◌≡◌, ◌∷◌, ◌++◌, [], None, IfOk, OnOk};
ghost use Rattle.pcode_model.specs.Flow.{AreApart};
ghost use Rattle.pcode_model.specs.Step.{call_operands, callee_at, indirect_operands, operands, proto_at, proto_of};
ghost use Rattle.pcode_model.specs.Atoms.{further_ranges, one_range, op_ranges, ranges_at, ranges_read};
ghost use Rattle.stackvars.specs.Accesses.{passed, passed_in};
ghost use Rattle.stackvars.specs.Collected.{atoms_at, atoms_in, atoms_of};

use crate::ranges::{push_optional, push_range, push_ranges};
use bits_core::Memory;
use instructions::{arguments, given, op_at, proto_called};
use pcode_model::{Atom, Block, Listing, Op, Opcode, Place, Storage, Varnode};
use std::alloc::Global;

fn push_argument(out: &mut Vec<Atom>, listing: &Listing, argument: &Storage) -> Result<(), Memory>
    ensures { OnOk result (out.new.items ≡ out.old.items ++ atoms_of listing.now (passed_in argument.now)) }
{
    match argument {
        Storage::At(range) => push_range(out, listing, range),
        Storage::Stack { .. } => Ok(()),
    }
}

#[tactic(auto, using(crate::proofs::Ops::atoms_of_both))]
fn push_arguments(
    out: &mut Vec<Atom>,
    listing: &Listing,
    arguments: &[Storage],
) -> Result<(), Memory>
    ensures { OnOk result (out.new.items ≡ out.old.items ++ atoms_of listing.now (passed arguments.now)) }
{
    for argument in arguments {
        push_argument(out, listing, argument)?;
    }
    Ok(())
}

// What a call of this prototype reads.
fn push_passed(out: &mut Vec<Atom>, listing: &Listing, proto: u32) -> Result<(), Memory>
    ensures { OnOk result (out.new.items
        ≡ out.old.items ++ atoms_of listing.now (passed (proto_at listing.now proto).args)) }
{
    push_arguments(out, listing, arguments(listing, proto))
}

fn push_given(out: &mut Vec<Atom>, listing: &Listing, proto: u32) -> Result<(), Memory>
    ensures { OnOk result (out.new.items
        ≡ out.old.items ++ atoms_of listing.now (one_range (proto_at listing.now proto).gives)) }
{
    push_optional(out, listing, given(listing, proto))
}

#[tactic(auto, using(crate::proofs::Passed::reads_passed))]
fn push_call(out: &mut Vec<Atom>, listing: &Listing, inputs: &[Varnode]) -> Result<(), Memory>
    ensures { OnOk result (out.new.items
        ≡ out.old.items ++ atoms_of listing.now (ranges_read (call_operands listing.now inputs.now))) }
{
    match inputs {
        [] => Ok(()),
        [to, ..] => push_passed(out, listing, proto_called(listing, to.offset)),
    }
}

fn push_target(out: &mut Vec<Atom>, listing: &Listing, to: &Varnode) -> Result<(), Memory>
    ensures { OnOk result (out.new.items
        ≡ out.old.items ++ atoms_of listing.now (to.now ∷ passed (proto_of listing.now None).args)) }
{
    push_range(out, listing, to)?;
    push_passed(out, listing, listing.func.proto)
}

#[tactic(auto, using(crate::proofs::Passed::reads_passed))]
fn push_indirect_call(
    out: &mut Vec<Atom>,
    listing: &Listing,
    inputs: &[Varnode],
) -> Result<(), Memory>
    ensures { OnOk result (out.new.items
        ≡ out.old.items ++ atoms_of listing.now (ranges_read (indirect_operands listing.now inputs.now))) }
{
    match inputs {
        [] => Ok(()),
        [to, ..] => push_target(out, listing, to),
    }
}

#[tactic(auto, using(crate::proofs::Ops::read_all, crate::proofs::Ops::read_past))]
fn push_operands(out: &mut Vec<Atom>, listing: &Listing, op: &Op) -> Result<(), Memory>
    ensures { OnOk result (out.new.items
        ≡ out.old.items ++ atoms_of listing.now (ranges_read (operands listing.now op.now.code op.now.inputs))) }
{
    match &op.code {
        Opcode::Unary(_)
        | Opcode::Binary(_)
        | Opcode::Divide(_)
        | Opcode::BranchInd
        | Opcode::Return => push_ranges(out, listing, op.inputs.as_slice()),
        Opcode::Load | Opcode::Store | Opcode::CBranch | Opcode::CallOther => push_ranges(
            out,
            listing,
            op.past_first(),
        ),
        Opcode::Call => push_call(out, listing, op.inputs.as_slice()),
        Opcode::CallInd => push_indirect_call(out, listing, op.inputs.as_slice()),
        _ => Ok(()),
    }
}

// What comes back from a call: the result's range, and the stack pointer.
#[tactic(auto, using(crate::proofs::Ops::atoms_of_both))]
fn push_back(out: &mut Vec<Atom>, listing: &Listing, proto: u32) -> Result<(), Memory>
    ensures { OnOk result (out.new.items ≡ out.old.items
        ++ atoms_of listing.now (one_range (proto_at listing.now proto).gives ++ one_range listing.now.stack)) }
{
    push_given(out, listing, proto)?;
    push_optional(out, listing, listing.stack)
}

fn push_further(out: &mut Vec<Atom>, listing: &Listing, op: &Op) -> Result<(), Memory>
    ensures { OnOk result (out.new.items
        ≡ out.old.items ++ atoms_of listing.now (further_ranges listing.now None op.now.code op.now.inputs)) }
{
    match &op.code {
        Opcode::Call => push_back(out, listing, proto_called(listing, op.input(0).offset)),
        Opcode::CallInd => push_back(out, listing, listing.func.proto),
        Opcode::Return => push_given(out, listing, listing.func.proto),
        _ => Ok(()),
    }
}

fn push_op(out: &mut Vec<Atom>, listing: &Listing, op: &Op) -> Result<(), Memory>
    ensures { OnOk result (out.new.items ≡ out.old.items ++ atoms_of listing.now (op_ranges listing.now None op.now)) }
{
    push_operands(out, listing, op)?;
    push_optional(out, listing, op.out)?;
    push_further(out, listing, op)
}

fn push_place(out: &mut Vec<Atom>, listing: &Listing, place: Place) -> Result<(), Memory>
    requires { AreApart listing.now.code }
    ensures { OnOk result (out.new.items ≡ out.old.items ++ atoms_of listing.now (ranges_at listing.now [] place)) }
{
    match op_at(listing, place) {
        Some(op) => push_op(out, listing, op),
        None => Ok(()),
    }
}

fn push_places(out: &mut Vec<Atom>, listing: &Listing, places: &[Place]) -> Result<(), Memory>
    requires { AreApart listing.now.code }
    ensures { OnOk result (out.new.items ≡ out.old.items ++ atoms_at listing.now places.now) }
{
    for place in places {
        push_place(out, listing, *place)?;
    }
    Ok(())
}

/// The ranges that the ops of the blocks access, in the order of the accesses.
pub(crate) fn accesses(
    alloc: Global,
    listing: &Listing,
    blocks: &[Block],
) -> Result<Vec<Atom>, Memory>
    requires { AreApart listing.now.code }
    ensures { IfOk result (λ accessed. accessed.items ≡ atoms_in listing.now blocks.now) }
{
    let mut out = Vec::new(alloc);
    for block in blocks {
        push_places(&mut out, listing, block.places.as_slice())?;
    }
    Ok(out)
}
