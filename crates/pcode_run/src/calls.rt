//! Calls.

ghost use Rattle.std.specs.Prelude.{◌≡◌, ◌<◌, ◌^◌, length, map, IfSome, OnOk};
ghost use Rattle.std.specs.List.{AllByRecursion};
ghost use Rattle.pcode_model.specs.declared.opcode.Opcode.TheVariants as O;
ghost use Rattle.pcode_model.specs.Memory.{whole};
ghost use Rattle.pcode_model.specs.Step.{Asks, Calls, answered, apply, output, write_out};
ghost use Rattle.pcode_model.specs.World.{take_answer};
ghost use Rattle.run_world.specs.Meaning.{value_of};
ghost use Rattle.pcode_memory.specs.Context.{IsContext, layout_of};
ghost use Rattle.pcode_operands.specs.Calls.{Ends};
ghost use Rattle.pcode_operands.specs.State.{place_of, state_of};
ghost use Rattle.pcode_operands.specs.Used.{IsLocal, IsUsed};
ghost use Rattle.pcode_run.specs.Steps.{Obeys, done};

use crate::callees::called_at;
use crate::ends::finish;
use crate::places::next_spot;
use bits_core::Memory;
use pcode_memory::{PcodeContext, take_answer};
use pcode_model::{Instruction, Op, Proto, Varnode};
use pcode_operands::calls::after_call;
use pcode_operands::operands::{read_all, read_arguments, read_varnode};
use pcode_operands::state::{State, WidePlace};
use pcode_operands::writes::{reduced, write_out};
use run_world::{End, Event, WordList};

// The answer's effects, or the end of the run where there is none.
fn take(context: &PcodeContext, state: &mut State, proto: &Proto) -> Result<(), Memory>
    requires context { IsContext context.now }
    requires keep { AllByRecursion Ends proto.now.keep }
    requires gives { IfSome proto.now.gives (IsLocal context.now.listing.now) }
    ensures { OnOk result (state_of context.now state.new
        ≡ answered context.now.listing.now proto.now
        (take_answer (whole (layout_of context.now)) (state_of context.now state.old).world)
        (state_of context.now state.old)) }
{
    match take_answer(context, &mut state.memory, &mut state.log)? {
        Some(answer) => after_call(context, &mut state.local, proto, answer),
        None => Ok(()),
    }
}

// Goes to a place and calls a function, which returns or doesn't.
fn call_to(
    context: &PcodeContext,
    state: &mut State,
    next: WidePlace,
    target: u128,
    args: WordList,
    proto: &Proto,
    returns: bool,
) -> Result<(), Memory>
    requires context { IsContext context.now }
    requires keep { AllByRecursion Ends proto.now.keep }
    requires gives { IfSome proto.now.gives (IsLocal context.now.listing.now) }
    ensures { OnOk result (state_of context.now state.new
        ≡ apply (whole (layout_of context.now)) context.now.listing.now (place_of next)
        (Calls target (map value_of args) proto.now returns) (state_of context.now state.old)) }
{
    state.at = next;
    state.log.events.push(Event::Call { target, args })?;
    if returns {
        take(context, state, proto)
    } else {
        finish(state, End::NoReturn);
        Ok(())
    }
}

/// Carries out a CALL.
pub fn call(
    context: &PcodeContext,
    state: &mut State,
    instruction: &Instruction,
    op: &Op,
) -> Result<(), Memory>
    requires context { IsContext context.now }
    requires few { length instruction.now.ops < 2 ^ 32 }
    requires kind { op.now.code ≡ O.Call }
    requires obeys { Obeys context.now.listing.now op.now }
    ensures { OnOk result
        (state_of context.now state.new ≡ done context.now instruction.now op.now (state_of context.now state.old)) }
{
    let to = op.input(0).offset;
    let (proto, returns) = called_at(context.listing, to);
    match read_arguments(context, state, proto.args.as_slice())? {
        Some(args) => {
            let next = next_spot(instruction, state.at.index);
            call_to(context, state, next, u128::from(to), args, proto, returns)
        }
        None => {
            finish(state, End::Outside);
            Ok(())
        }
    }
}

/// Carries out a CALLIND.
pub fn call_ind(
    context: &PcodeContext,
    state: &mut State,
    instruction: &Instruction,
    op: &Op,
) -> Result<(), Memory>
    requires context { IsContext context.now }
    requires few { length instruction.now.ops < 2 ^ 32 }
    requires kind { op.now.code ≡ O.CallInd }
    requires obeys { Obeys context.now.listing.now op.now }
    ensures { OnOk result
        (state_of context.now state.new ≡ done context.now instruction.now op.now (state_of context.now state.old)) }
{
    let proto = context.listing.own_proto();
    let Some(to) = read_varnode(context, state, op.input(0))? else {
        finish(state, End::Outside);
        return Ok(());
    };
    match read_arguments(context, state, proto.args.as_slice())? {
        Some(args) => {
            let next = next_spot(instruction, state.at.index);
            call_to(context, state, next, to.value, args, proto, true)
        }
        None => {
            finish(state, End::Outside);
            Ok(())
        }
    }
}

// Writes an answer's word to the output.
fn put_answer(
    context: &PcodeContext,
    state: &mut State,
    out: Option<Varnode>,
    word: u128,
) -> Result<(), Memory>
    requires context { IsContext context.now }
    requires out { IfSome out (IsUsed context.now.listing.now) }
    ensures { OnOk result (state_of context.now state.new
        ≡ write_out (whole (layout_of context.now)) context.now.listing.now out (output out word)
        (state_of context.now state.old)) }
{
    match out {
        Some(v) => write_out(context, state, out, reduced(word, v.size)),
        None => Ok(()),
    }
}

// Goes to a place and records and asks for what CALLOTHER gives.
fn ask(
    context: &PcodeContext,
    state: &mut State,
    next: WidePlace,
    index: u64,
    args: WordList,
    out: Option<Varnode>,
) -> Result<(), Memory>
    requires context { IsContext context.now }
    requires out { IfSome out (IsUsed context.now.listing.now) }
    ensures { OnOk result (state_of context.now state.new
        ≡ apply (whole (layout_of context.now)) context.now.listing.now (place_of next)
        (Asks index (map value_of args) out) (state_of context.now state.old)) }
{
    state.at = next;
    state.log.events.push(Event::Other { index, args })?;
    match take_answer(context, &mut state.memory, &mut state.log)? {
        Some(answer) => put_answer(context, state, out, answer.word),
        None => Ok(()),
    }
}

/// Carries out a CALLOTHER.
pub fn call_other(
    context: &PcodeContext,
    state: &mut State,
    instruction: &Instruction,
    op: &Op,
) -> Result<(), Memory>
    requires context { IsContext context.now }
    requires few { length instruction.now.ops < 2 ^ 32 }
    requires kind { op.now.code ≡ O.CallOther }
    requires obeys { Obeys context.now.listing.now op.now }
    ensures { OnOk result
        (state_of context.now state.new ≡ done context.now instruction.now op.now (state_of context.now state.old)) }
{
    match read_all(context, state, &op.inputs.as_slice()[1..])? {
        Some(args) => {
            let next = next_spot(instruction, state.at.index);
            ask(context, state, next, op.input(0).offset, args, op.out)
        }
        None => {
            finish(state, End::Outside);
            Ok(())
        }
    }
}
