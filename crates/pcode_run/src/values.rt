//! Operations on words.

ghost use Rattle.std.specs.Prelude.{◌≡◌, ◌<◌, ◌^◌, length, IfSome, OnOk};
ghost use Rattle.bits_core.specs.Value.{divide_value};
ghost use Rattle.pcode_model.specs.declared.opcode.Opcode.TheVariants as O;
ghost use Rattle.pcode_model.specs.Memory.{whole};
ghost use Rattle.pcode_model.specs.Places.{next_place};
ghost use Rattle.pcode_model.specs.Step.{Writes, apply, divided};
ghost use Rattle.pcode_memory.specs.Context.{IsContext, layout_of};
ghost use Rattle.pcode_operands.specs.State.{state_of};
ghost use Rattle.pcode_operands.specs.Used.{IsUsed};
ghost use Rattle.pcode_run.specs.Steps.{Obeys, done};

use crate::ends::finish;
use crate::inputs::{read_two, width_out};
use crate::places::next_spot;
use bits_core::{Binary, Divide, Memory, Unary, Word, binary, divide, unary};
use pcode_memory::PcodeContext;
use pcode_model::{Instruction, Op};
use pcode_operands::operands::read_varnode;
use pcode_operands::state::State;
use pcode_operands::writes::write_out;
use run_world::End;

// Goes to the next place and writes a word to the output.
fn put_value(
    context: &PcodeContext,
    state: &mut State,
    instruction: &Instruction,
    op: &Op,
    word: u128,
) -> Result<(), Memory>
    requires context { IsContext context.now }
    requires few { length instruction.now.ops < 2 ^ 32 }
    requires out { IfSome op.now.out (IsUsed context.now.listing.now) }
    ensures { OnOk result (state_of context.now state.new
        ≡ apply (whole (layout_of context.now)) context.now.listing.now
        (next_place instruction.now state.old.at.index) (Writes op.now.out word)
        (state_of context.now state.old)) }
{
    state.at = next_spot(instruction, state.at.index);
    write_out(context, state, op.out, word)
}

/// Carries out an operation of one input.
pub fn do_unary(
    context: &PcodeContext,
    state: &mut State,
    instruction: &Instruction,
    op: &Op,
    code: Unary,
) -> Result<(), Memory>
    requires context { IsContext context.now }
    requires few { length instruction.now.ops < 2 ^ 32 }
    requires kind { op.now.code ≡ O.Unary code }
    requires obeys { Obeys context.now.listing.now op.now }
    ensures { OnOk result
        (state_of context.now state.new ≡ done context.now instruction.now op.now (state_of context.now state.old)) }
{
    match read_varnode(context, state, op.input(0))? {
        Some(a) => {
            let word = unary(code, a, width_out(op));
            put_value(context, state, instruction, op, word.value)
        }
        None => {
            finish(state, End::Outside);
            Ok(())
        }
    }
}

/// Carries out an operation of two inputs.
pub fn do_binary(
    context: &PcodeContext,
    state: &mut State,
    instruction: &Instruction,
    op: &Op,
    code: Binary,
) -> Result<(), Memory>
    requires context { IsContext context.now }
    requires few { length instruction.now.ops < 2 ^ 32 }
    requires kind { op.now.code ≡ O.Binary code }
    requires obeys { Obeys context.now.listing.now op.now }
    ensures { OnOk result
        (state_of context.now state.new ≡ done context.now instruction.now op.now (state_of context.now state.old)) }
{
    match read_two(context, state, op.input(0), op.input(1))? {
        Some((a, b)) => {
            let word = binary(code, a, b, width_out(op));
            put_value(context, state, instruction, op, word.value)
        }
        None => {
            finish(state, End::Outside);
            Ok(())
        }
    }
}

// Goes on with the quotient or the remainder of two words, or ends the run.
fn put_divided(
    context: &PcodeContext,
    state: &mut State,
    instruction: &Instruction,
    op: &Op,
    code: Divide,
    a: Word,
    b: Word,
) -> Result<(), Memory>
    requires context { IsContext context.now }
    requires few { length instruction.now.ops < 2 ^ 32 }
    requires out { IfSome op.now.out (IsUsed context.now.listing.now) }
    requires same { a.width.bytes ≡ b.width.bytes }
    ensures { OnOk result (state_of context.now state.new
        ≡ apply (whole (layout_of context.now)) context.now.listing.now
        (next_place instruction.now state.old.at.index)
        (divided op.now.out (divide_value code a.width.bytes a.value b.value)) (state_of context.now state.old)) }
{
    match divide(code, a, b) {
        Ok(word) => put_value(context, state, instruction, op, word.value),
        Err(_) => {
            finish(state, End::DivZero);
            Ok(())
        }
    }
}

/// Carries out a division or a remainder.
pub fn do_divide(
    context: &PcodeContext,
    state: &mut State,
    instruction: &Instruction,
    op: &Op,
    code: Divide,
) -> Result<(), Memory>
    requires context { IsContext context.now }
    requires few { length instruction.now.ops < 2 ^ 32 }
    requires kind { op.now.code ≡ O.Divide code }
    requires obeys { Obeys context.now.listing.now op.now }
    ensures { OnOk result
        (state_of context.now state.new ≡ done context.now instruction.now op.now (state_of context.now state.old)) }
{
    match read_two(context, state, op.input(0), op.input(1))? {
        Some((a, b)) => put_divided(context, state, instruction, op, code, a, b),
        None => {
            finish(state, End::Outside);
            Ok(())
        }
    }
}
