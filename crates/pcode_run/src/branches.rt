//! Branches and the return.

ghost use Rattle.std.specs.Prelude.{◌≡◌, ◌<◌, ◌^◌, ◌==◌, length, if◌then◌else◌, Some, IfOk, IfSome, OnOk};
ghost use Rattle.pcode_model.specs.declared.listing.Instruction.{Instruction};
ghost use Rattle.pcode_model.specs.declared.opcode.Opcode.TheVariants as O;
ghost use Rattle.pcode_model.specs.Places.{branch_place, next_place};
ghost use Rattle.pcode_model.specs.Step.{result_of};
ghost use Rattle.run_world.specs.Maps.{bytes_of};
ghost use Rattle.run_world.specs.Meaning.{returned};
ghost use Rattle.pcode_memory.specs.declared.context.PcodeContext.{PcodeContext};
ghost use Rattle.pcode_memory.specs.Context.{IsContext};
ghost use Rattle.pcode_operands.specs.State.{places_of, state_of};
ghost use Rattle.pcode_operands.specs.Used.{IsLocal};
ghost use Rattle.pcode_run.specs.Steps.{Obeys, done};

use crate::ends::{finish, go};
use crate::places::{branch_spot, next_spot};
use bits_core::{Memory, Word};
use pcode_memory::PcodeContext;
use pcode_model::{Instruction, Op, Varnode};
use pcode_operands::operands::{local_word, read_varnode};
use pcode_operands::state::{State, WidePlace};
use run_world::End;

/// Carries out a BRANCH.
pub fn branch(state: &mut State, instruction: &Instruction, op: &Op)
    requires few { length instruction.now.ops < 2 ^ 32 }
    requires kind { op.now.code ≡ O.Branch }
    ensures { (c : PcodeContext) → state_of c state.new ≡ done c instruction.now op.now (state_of c state.old) }
{
    let to = branch_spot(instruction, state.at.index, op.input(0));
    go(state, to);
}

// Where a CBRANCH leads by the word of its test.
fn tested_spot(instruction: &Instruction, index: u32, to: Varnode, test: Word) -> Option<WidePlace>
    requires { length instruction.now.ops < 2 ^ 32 }
    ensures { places_of result
        ≡ if test.value == 0 then Some (next_place instruction.now index) else branch_place instruction.now index to }
{
    if test.value == 0 {
        Some(next_spot(instruction, index))
    } else {
        branch_spot(instruction, index, to)
    }
}

/// Carries out a CBRANCH.
pub fn cbranch(
    context: &PcodeContext,
    state: &mut State,
    instruction: &Instruction,
    op: &Op,
) -> Result<(), Memory>
    requires context { IsContext context.now }
    requires few { length instruction.now.ops < 2 ^ 32 }
    requires kind { op.now.code ≡ O.CBranch }
    requires obeys { Obeys context.now.listing.now op.now }
    ensures { OnOk result
        (state_of context.now state.new ≡ done context.now instruction.now op.now (state_of context.now state.old)) }
{
    match read_varnode(context, state, op.input(1))? {
        Some(test) => {
            let to = tested_spot(instruction, state.at.index, op.input(0), test);
            go(state, to);
        }
        None => finish(state, End::Outside),
    }
    Ok(())
}

/// Carries out a BRANCHIND.
pub fn branch_ind(context: &PcodeContext, state: &mut State, op: &Op) -> Result<(), Memory>
    requires context { IsContext context.now }
    requires kind { op.now.code ≡ O.BranchInd }
    requires obeys { Obeys context.now.listing.now op.now }
    ensures { OnOk result ((i : Instruction)
        → state_of context.now state.new ≡ done context.now i op.now (state_of context.now state.old)) }
{
    match read_varnode(context, state, op.input(0))? {
        Some(to) => {
            state.at = WidePlace {
                address: to.value,
                index: 0,
            };
        }
        None => finish(state, End::Outside),
    }
    Ok(())
}

// The word of the result's range.
fn word_given(
    context: &PcodeContext,
    state: &State,
    gives: Option<Varnode>,
) -> Result<Option<Word>, Memory>
    requires { IfSome gives (IsLocal context.now.listing.now) }
    ensures { IfOk result (λ w. returned w ≡ result_of context.now.listing.now (bytes_of state.now.local) gives) }
{
    match gives {
        Some(v) => {
            let word = local_word(context, &state.local, v)?;
            Ok(Some(word))
        }
        None => Ok(None),
    }
}

/// Carries out a RETURN.
pub fn do_return(context: &PcodeContext, state: &mut State, op: &Op) -> Result<(), Memory>
    requires context { IsContext context.now }
    requires kind { op.now.code ≡ O.Return }
    requires obeys { Obeys context.now.listing.now op.now }
    ensures { OnOk result ((i : Instruction)
        → state_of context.now state.new ≡ done context.now i op.now (state_of context.now state.old)) }
{
    match read_varnode(context, state, op.input(0))? {
        Some(_) => {
            let word = word_given(context, state, context.listing.own_proto().gives)?;
            finish(state, End::Returned(word));
        }
        None => finish(state, End::Outside),
    }
    Ok(())
}
