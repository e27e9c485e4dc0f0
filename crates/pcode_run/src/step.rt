//! One step.

ghost use Rattle.std.specs.Prelude.{◌≡◌, ◌<◌, ◌^◌, length, true, Some, OnOk};
ghost use Rattle.pcode_model.specs.Places.{instruction_at, standing, standing_of};
ghost use Rattle.pcode_memory.specs.Context.{IsContext, frame_in};
ghost use Rattle.pcode_operands.specs.State.{state_of};
ghost use Rattle.pcode_run.specs.Run.{OwnsFirstRam, by_pointer};
ghost use Rattle.pcode_run.specs.Steps.{Obeys, OwnsRam, done, stepped};

use crate::accesses::{load, store};
use crate::branches::{branch, branch_ind, cbranch, do_return};
use crate::calls::{call, call_ind, call_other};
use crate::ends::finish;
use crate::places::next_instruction;
use crate::values::{do_binary, do_divide, do_unary};
use bits_core::Memory;
use instructions::instruction;
use pcode_memory::PcodeContext;
use pcode_model::{Instruction, Op, Opcode};
use pcode_operands::state::State;
use run_world::End;

// Carries out an op of an instruction.
fn carry_out(
    context: &PcodeContext,
    state: &mut State,
    instruction: &Instruction,
    op: &Op,
) -> Result<(), Memory>
    requires context { IsContext context.now }
    requires few { length instruction.now.ops < 2 ^ 32 }
    requires obeys { Obeys context.now.listing.now op.now }
    requires owns { by_pointer op.now.code ≡ true → OwnsRam context.now op.now (state_of context.now state.old) }
    ensures { OnOk result
        (state_of context.now state.new ≡ done context.now instruction.now op.now (state_of context.now state.old)) }
{
    match &op.code {
        Opcode::Unary(code) => do_unary(context, state, instruction, op, *code),
        Opcode::Binary(code) => do_binary(context, state, instruction, op, *code),
        Opcode::Divide(code) => do_divide(context, state, instruction, op, *code),
        Opcode::Load => load(context, state, instruction, op),
        Opcode::Store => store(context, state, instruction, op),
        Opcode::Branch => {
            branch(state, instruction, op);
            Ok(())
        }
        Opcode::CBranch => cbranch(context, state, instruction, op),
        Opcode::BranchInd => branch_ind(context, state, op),
        Opcode::Call => call(context, state, instruction, op),
        Opcode::CallInd => call_ind(context, state, instruction, op),
        Opcode::CallOther => call_other(context, state, instruction, op),
        Opcode::Return => do_return(context, state, op),
        Opcode::Float(_) | Opcode::FloatConversion(_) | Opcode::Analysis(_) | Opcode::LeftOut(_) =>
            {
                finish(state, End::BadTarget);
                Ok(())
            }
    }
}

// What stands at an index of an instruction.
fn stand(context: &PcodeContext, state: &mut State, instruction: &Instruction) -> Result<(), Memory>
    requires context { IsContext context.now }
    requires here { instruction_at context.now.listing.now state.old.at.address ≡ Some instruction.now }
    requires owns { OwnsFirstRam context.now.listing.now (frame_in context.now) }
    ensures { OnOk result (state_of context.now state.new
        ≡ stepped context.now (standing_of (Some instruction.now) state.old.at.index)
        (state_of context.now state.old)) }
{
    if instruction.ops.is_empty() && state.at.index == 0 {
        state.at = next_instruction(instruction);
        return Ok(());
    }
    match instruction.ops.get(state.at.index as usize) {
        Some(op) => carry_out(context, state, instruction, op),
        None => {
            finish(state, End::BadTarget);
            Ok(())
        }
    }
}

/// Carries out what stands at the state's place.
pub fn step(context: &PcodeContext, state: &mut State) -> Result<(), Memory>
    requires context { IsContext context.now }
    requires owns { OwnsFirstRam context.now.listing.now (frame_in context.now) }
    ensures { OnOk result (state_of context.now state.new
        ≡ stepped context.now (standing context.now.listing.now (state_of context.now state.old).at)
        (state_of context.now state.old)) }
{
    match instruction(context.listing, state.at.address) {
        Some(instruction) => stand(context, state, instruction),
        None => {
            finish(state, End::BadTarget);
            Ok(())
        }
    }
}
