//! A step.

ghost use Rattle.std.specs.Prelude.{◌+◌, ◌<◌, ◌^◌, Some, List, map, slice_get, Option, IfOk, IfSome};
ghost use Rattle.cmeaning.specs.Do.{widths_in};
ghost use Rattle.cmeaning.specs.Flat.{returns_by, found_in};
ghost use Rattle.cmeaning.specs.Step.{carry_out as carried, given, gives, goes_by, tested};
ghost use Rattle.cmeaning.specs.Value.{value_of};
ghost use Rattle.cvalue.specs.Held.{env_of};
ghost use Rattle.flatcode.specs.Steps.{case_of, code_of, flat_step, place_in};
ghost use Rattle.run_world.specs.declared.entry.Answer.{Answer as AnAnswer};
ghost use Rattle.c_run.specs.May.{IsRight, MayStep, StepFits, may_give};
ghost use Rattle.c_run.specs.States.{Goes, IsContext, state_of};

use crate::context::CContext;
use crate::local::Local;
use crate::simple::do_simple;
use bits_core::{Memory, Word};
use cmeaning::Expr;
use flatcode::step::led_to;
use flatcode::{Case, FlatCode, Step};
use run_world::End;

/// Where a condition leads.
fn test(local: &mut Local, condition: &Expr, yes: usize, no: usize, position: usize) -> usize
    requires { IsRight (widths_in local.old.variables.f.now) condition.now }
    ensures { (answers : List AnAnswer)
        → Goes answers local.old local.new result (goes_by
        (value_of (widths_in local.old.variables.f.now) (env_of local.old.variables.words.items) condition.now)
        (state_of answers local.old position) (tested yes no)) }
{
    match local.variables.value(condition) {
        None => {
            local.finish(End::Undefined);
            position
        }
        Some(word) => { if word.value == 0 { no } else { yes } }
    }
}

/// Where a switch leads.
fn choose(local: &mut Local, value: &Expr, cases: &[Case], other: usize, position: usize) -> usize
    requires { IsRight (widths_in local.old.variables.f.now) value.now }
    ensures { (answers : List AnAnswer)
        → Goes answers local.old local.new result (goes_by
        (value_of (widths_in local.old.variables.f.now) (env_of local.old.variables.words.items) value.now)
        (state_of answers local.old position) (found_in (map case_of cases.now) other)) }
{
    match local.variables.value(value) {
        None => {
            local.finish(End::Undefined);
            position
        }
        Some(word) => led_to(cases, other, word.value),
    }
}

/// The function ends with a value.
fn give_value(local: &mut Local, e: &Expr, position: usize) -> usize
    requires { IsRight (widths_in local.old.variables.f.now) e.now }
    ensures { (answers : List AnAnswer)
        → Goes answers local.old local.new result
        (gives (value_of (widths_in local.old.variables.f.now) (env_of local.old.variables.words.items) e.now)
        (state_of answers local.old position)) }
{
    let Some(word) = local.variables.value(e) else {
        local.finish(End::Undefined);
        return position;
    };
    local.finish(End::Returned(Some(word)));
    position
}

/// The function ends.
fn give(local: &mut Local, value: &Option<Expr>, position: usize) -> usize
    requires { may_give (widths_in local.old.variables.f.now) value.now }
    ensures { (answers : List AnAnswer)
        → Goes answers local.old local.new result
        (given (widths_in local.old.variables.f.now) value.now (state_of answers local.old position)) }
{
    match value {
        None => {
            local.finish(End::Returned(None));
            position
        }
        Some(e) => give_value(local, e, position),
    }
}

/// Carries out a step at a position. The next position.
fn do_step(
    context: &CContext,
    code: &FlatCode,
    local: &mut Local,
    position: usize,
    step: &Step,
) -> Result<usize, Memory>
    requires context { IsContext context.now }
    requires below { position + 1 < 2 ^ 64 }
    requires right { MayStep (widths_in local.old.variables.f.now)
        (flat_step (place_in code.now.labels.items code.now.end) step.now) }
    requires fits { StepFits context.now.listing.now (widths_in local.old.variables.f.now)
        (flat_step (place_in code.now.labels.items code.now.end) step.now) }
    ensures { IfOk result (λ next. Goes context.now.answers.now local.old local.new next
        (carried context.now.listing.now (widths_in local.old.variables.f.now)
        (returns_by local.old.variables.f.now.callees)
        (Some (flat_step (place_in code.now.labels.items code.now.end) step.now))
        (state_of context.now.answers.now local.old position))) }
{
    match step {
        Step::Do(s) => {
            do_simple(context, local, s)?;
            Ok(position + 1)
        }
        Step::Test { condition, yes, no } => Ok(test(local, condition, *yes, *no, position)),
        Step::Jump(to) => Ok(*to),
        Step::Goto(label) => Ok(code.position(*label)),
        Step::Choose {
            value,
            cases,
            other,
        } => Ok(choose(local, value, cases.as_slice(), *other, position)),
        Step::Give(value) => Ok(give(local, value, position)),
    }
}

/// Carries out the step at a position. The next position.
pub(crate) fn carry_out(
    context: &CContext,
    code: &FlatCode,
    local: &mut Local,
    position: usize,
) -> Result<usize, Memory>
    requires context { IsContext context.now }
    requires right { IfSome (slice_get (code_of code.now) position) (MayStep (widths_in local.old.variables.f.now)) }
    requires fits { IfSome (slice_get (code_of code.now) position)
        (StepFits context.now.listing.now (widths_in local.old.variables.f.now)) }
    ensures { IfOk result (λ next. Goes context.now.answers.now local.old local.new next
        (carried context.now.listing.now (widths_in local.old.variables.f.now)
        (returns_by local.old.variables.f.now.callees) (slice_get (code_of code.now) position)
        (state_of context.now.answers.now local.old position))) }
{
    match code.steps.get(position) {
        None => {
            local.finish(End::Undefined);
            Ok(position)
        }
        Some(step) => do_step(context, code, local, position, step),
    }
}
