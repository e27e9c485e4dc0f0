//! What calls do.

ghost use Rattle.std.specs.Prelude.{◌≡◌, ◌<◌, List, IfOk, OnOk};
ghost use Rattle.cmeaning.specs.Do.{asks, do_simple, in_world, values_of, widths_in, with_target};
ghost use Rattle.cmeaning.specs.Flat.{returns_by};
ghost use Rattle.cmeaning.specs.declared.tree.Stmt.TheVariants as S;
ghost use Rattle.cvalue.specs.Held.{env_of};
ghost use Rattle.pcode_model.specs.World.{recorded};
ghost use Rattle.run_world.specs.Meaning.{answer_of, event_of};
ghost use Rattle.run_world.specs.declared.entry.Answer.{Answer as AnAnswer};
ghost use Rattle.c_run.specs.May.{AreRight, IsRight, IsTarget};
ghost use Rattle.c_run.specs.States.{Becomes, IsContext, all_of, local_of, numbers_in};

use crate::context::CContext;
use crate::local::Local;
use bits_core::{Memory, Word};
use cmeaning::Expr;
use flatcode::spans::returns;
use run_world::plain::take_answer;
use run_world::{Answer, End, Event, OffsetMap, WordList};

/// The values of expressions, if each has one.
pub(crate) fn values(
    context: &CContext,
    local: &Local,
    args: &[Expr],
) -> Result<Option<WordList>, Memory>
    requires { AreRight (widths_in local.now.variables.f.now) args.now }
    ensures { IfOk result (λ o. numbers_in o
        ≡ all_of
        (values_of (widths_in local.now.variables.f.now) (env_of local.now.variables.words.items) args.now)) }
{
    let mut words = WordList::new(context.alloc);
    for e in args {
        match local.variables.value(e) {
            Some(word) => words.push(word)?,
            None => return Ok(None),
        }
    }
    Ok(Some(words))
}

/// The target of a call takes the answer's word, reduced to its width.
fn give(local: &mut Local, target: Option<u32>, word: u128)
    requires { IsTarget (widths_in local.old.variables.f.now) target }
    ensures { (answers : List AnAnswer)
        → Becomes answers local.old local.new (let x = local_of answers local.old in
        record {
          env = with_target (widths_in local.old.variables.f.now) target word x.env;
          left = x.left;
          world = x.world;
        }) }
{
    if let Some(v) = target {
        let width = local.variables.width(v);
        local.variables.assign(v as usize, Word::new(word, width));
    }
}

fn answered(
    context: &CContext,
    local: &mut Local,
    target: Option<u32>,
    answer: &Answer,
) -> Result<(), Memory>
    requires { IsTarget (widths_in local.old.variables.f.now) target }
    ensures { OnOk result ((answers : List AnAnswer)
        → Becomes answers local.old local.new (let x = local_of answers local.old in
        record {
          env = with_target (widths_in local.old.variables.f.now) target answer.now.word x.env;
          left = (answer_of answer.now).registers;
          world = x.world;
        })) }
{
    local.left = OffsetMap::of_bytes(context.alloc, answer.registers.as_slice())?;
    give(local, target, answer.word);
    Ok(())
}

/// The next answer is taken.
fn ask(context: &CContext, local: &mut Local, target: Option<u32>) -> Result<(), Memory>
    requires context { IsContext context.now }
    requires target { IsTarget (widths_in local.old.variables.f.now) target }
    ensures { OnOk result (Becomes context.now.answers.now local.old local.new
        (asks context.now.listing.now (widths_in local.old.variables.f.now) target
        (local_of context.now.answers.now local.old))) }
{
    let answer = take_answer(
        context.listing,
        &context.setting,
        &mut local.log,
        &mut local.memory,
        context.answers,
    )?;
    match answer {
        None => Ok(()),
        Some(answer) => answered(context, local, target, answer),
    }
}

/// An event is recorded.
fn record(local: &mut Local, event: Event) -> Result<(), Memory>
    ensures { OnOk result ((answers : List AnAnswer)
        → Becomes answers local.old local.new
        (let x = local_of answers local.old in in_world (recorded (event_of event) x.world) x)) }
{
    local.log.events.push(event)?;
    Ok(())
}

/// An event is recorded, and the next answer is taken.
fn ask_after(
    context: &CContext,
    local: &mut Local,
    target: Option<u32>,
    event: Event,
) -> Result<(), Memory>
    requires context { IsContext context.now }
    requires target { IsTarget (widths_in local.old.variables.f.now) target }
    ensures { OnOk result (Becomes context.now.answers.now local.old local.new
        (let x = (local_of context.now.answers.now local.old) in
        asks context.now.listing.now (widths_in local.old.variables.f.now) target
        (in_world (recorded (event_of event) x.world) x))) }
{
    record(local, event)?;
    ask(context, local, target)
}

pub(crate) fn call(
    context: &CContext,
    local: &mut Local,
    target: Option<u32>,
    callee: u64,
    args: &[Expr],
) -> Result<(), Memory>
    requires context { IsContext context.now }
    requires target { IsTarget (widths_in local.old.variables.f.now) target }
    requires args { AreRight (widths_in local.old.variables.f.now) args.now }
    ensures { OnOk result (Becomes context.now.answers.now local.old local.new
        (do_simple context.now.listing.now (widths_in local.old.variables.f.now)
        (returns_by local.old.variables.f.now.callees) (S.Call target callee args.now)
        (local_of context.now.answers.now local.old))) }
{
    let Some(args) = values(context, local, args)? else {
        local.finish(End::Undefined);
        return Ok(());
    };
    let event = Event::Call {
        target: u128::from(callee),
        args,
    };
    if returns(local.variables.f.callees.as_slice(), callee) {
        return ask_after(context, local, target, event);
    }
    record(local, event)?;
    local.finish(End::NoReturn);
    Ok(())
}

pub(crate) fn call_ind(
    context: &CContext,
    local: &mut Local,
    target: Option<u32>,
    callee: &Expr,
    args: &[Expr],
) -> Result<(), Memory>
    requires context { IsContext context.now }
    requires target { IsTarget (widths_in local.old.variables.f.now) target }
    requires callee { IsRight (widths_in local.old.variables.f.now) callee.now }
    requires args { AreRight (widths_in local.old.variables.f.now) args.now }
    ensures { OnOk result (Becomes context.now.answers.now local.old local.new
        (do_simple context.now.listing.now (widths_in local.old.variables.f.now)
        (returns_by local.old.variables.f.now.callees) (S.CallInd target callee.now args.now)
        (local_of context.now.answers.now local.old))) }
{
    let Some(callee) = local.variables.value(callee) else {
        local.finish(End::Undefined);
        return Ok(());
    };
    let Some(args) = values(context, local, args)? else {
        local.finish(End::Undefined);
        return Ok(());
    };
    ask_after(
        context,
        local,
        target,
        Event::Call {
            target: callee.value,
            args,
        },
    )
}

pub(crate) fn other(
    context: &CContext,
    local: &mut Local,
    target: Option<u32>,
    index: u64,
    args: &[Expr],
) -> Result<(), Memory>
    requires context { IsContext context.now }
    requires target { IsTarget (widths_in local.old.variables.f.now) target }
    requires args { AreRight (widths_in local.old.variables.f.now) args.now }
    ensures { OnOk result (Becomes context.now.answers.now local.old local.new
        (do_simple context.now.listing.now (widths_in local.old.variables.f.now)
        (returns_by local.old.variables.f.now.callees) (S.Other target index args.now)
        (local_of context.now.answers.now local.old))) }
{
    let Some(args) = values(context, local, args)? else {
        local.finish(End::Undefined);
        return Ok(());
    };
    ask_after(context, local, target, Event::Other { index, args })
}
