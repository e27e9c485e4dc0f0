//! Whether the statements of a body obey the rules of a valid tree.

ghost use Rattle.std.specs.Prelude.{◌≡◌, ◌&&◌, map, true, false, Bool, ℕ, None, IfOk, IsOk};
ghost use Rattle.cmeaning.specs.declared.tree.CFunction.{CFunction as Function};
ghost use Rattle.cmeaning.specs.Do.{widths_in};
ghost use Rattle.cmeaning.specs.Kinds.{kind_of, computes, calls, nests};
ghost use Rattle.cmeaning.specs.Shape.{shape_of, is_condition};
ghost use Rattle.cmeaning.specs.Valid.{rule_of, all_hold, are_cases_of, cases_of};
ghost use Rattle.cmeaning.specs.Arms.{arms_right};

use crate::cases::{cases_fit, is_named};
use crate::rules::{
    assigns, call_fits, call_ind_fits, divide_fits, extra_fits, load_fits, other_fits,
    returns_right, store_fits,
};
use crate::shape::may_test;
use crate::tree::{Arm, CFunction, Expr, Stmt};
use bits_core::Memory;
use std::alloc::Global;

/// Whether an EXTRAOUT may stand directly after the statement.
#[tactic(auto, unfolding(crate::specs::Valid::rule_of))]
fn takes_extra(s: &Stmt) -> bool
    ensures { (f : Function) (labels : ℕ) → result ≡ (rule_of f labels s.now).calls }
{
    match s {
        Stmt::Call { .. } => true,
        Stmt::CallInd { .. } => true,
        Stmt::Extra { .. } => true,
        _ => false,
    }
}

/// What statements are held to.
#[derive(Clone, Copy)]
struct Rules<'f> {
    /// The function that they stand in.
    f: &'f CFunction,
    /// The number that its next label would have.
    labels: u64,
    /// For sets of case values. Without it none is made, and none can be refused.
    memory: Option<Global>,
}

/// Whether a statement that computes or moves a value obeys the rules.
#[tactic(auto, unfolding(crate::specs::Valid::rule_of, crate::specs::Kinds::kind_of))]
fn computation_holds(f: &CFunction, s: &Stmt) -> bool
    requires { computes (kind_of s.now) ≡ true }
    ensures { (labels : ℕ) (after_call : Bool) (in_loop : Bool) (room : ℕ) → result ≡ (rule_of f.now labels s.now).holds after_call in_loop room }
{
    match s {
        Stmt::Assign { target, value } => assigns(f, *target, value),
        Stmt::Load {
            target,
            space,
            address,
        } => load_fits(f, *target, space, address),
        Stmt::Store {
            space,
            address,
            value,
        } => store_fits(f, space, address, value),
        Stmt::Divide {
            target,
            left,
            right,
            ..
        } => divide_fits(f, *target, left, right),
        _ => unreachable!(),
    }
}

/// Whether a call obeys the rules, or a statement that takes what one has left.
#[tactic(auto, unfolding(crate::specs::Valid::rule_of, crate::specs::Kinds::kind_of))]
fn call_holds(f: &CFunction, s: &Stmt, after_call: bool) -> bool
    requires { calls (kind_of s.now) ≡ true }
    ensures { (labels : ℕ) (in_loop : Bool) (room : ℕ) → result ≡ (rule_of f.now labels s.now).holds after_call in_loop room }
{
    match s {
        Stmt::Call {
            target,
            callee,
            args,
        } => call_fits(f, *target, *callee, args.as_slice()),
        Stmt::CallInd {
            target,
            callee,
            args,
        } => call_ind_fits(f, *target, callee, args.as_slice()),
        Stmt::Other {
            target,
            index,
            args,
        } => other_fits(f, *target, *index, args.as_slice()),
        Stmt::Extra { target, offset } => extra_fits(f, *target, *offset, after_call),
        _ => unreachable!(),
    }
}

/// Whether a statement without statements in it obeys the rules.
#[tactic(auto, unfolding(crate::specs::Valid::rule_of, crate::specs::Kinds::kind_of))]
fn simple_holds(rules: Rules<'_>, s: &Stmt, after_call: bool, in_loop: bool) -> bool
    requires { nests (kind_of s.now) ≡ false }
    ensures { (room : ℕ) → result ≡ (rule_of rules.entry.f.now rules.entry.labels s.now).holds after_call in_loop room }
{
    match s {
        Stmt::Call { .. } | Stmt::CallInd { .. } | Stmt::Other { .. } | Stmt::Extra { .. } => {
            call_holds(rules.f, s, after_call)
        }
        Stmt::Break => in_loop,
        Stmt::Goto(n) => 0 < *n && u64::from(*n) < rules.labels,
        Stmt::Label(n) => {
            let _n = *n;
            true
        }
        Stmt::Return(e) => returns_right(rules.f, e),
        _ => computation_holds(rules.f, s),
    }
}

/// Whether a statement obeys the rules, where so many levels of statements may stand inside it.
#[cycle(body)]
#[tactic(auto, unfolding(crate::specs::Kinds::kind_of))]
fn stmt_holds(
    rules: Rules<'_>,
    s: &Stmt,
    after_call: bool,
    in_loop: bool,
    room: u32,
) -> Result<bool, Memory>
    ensures right { IfOk result (λ b. b ≡ (rule_of rules.entry.f.now rules.entry.labels s.now).holds after_call in_loop room) }
    ensures without { rules.entry.memory ≡ None → IsOk result }
{
    match s {
        Stmt::If { condition, body } => {
            tested_holds(rules, condition, body.as_slice(), in_loop, room)
        }
        Stmt::IfElse { condition, yes, no } => branches_hold(
            rules,
            condition,
            yes.as_slice(),
            no.as_slice(),
            in_loop,
            room,
        ),
        Stmt::While { condition, body } => {
            tested_holds(rules, condition, body.as_slice(), true, room)
        }
        Stmt::DoWhile { body, condition } => {
            tested_holds(rules, condition, body.as_slice(), true, room)
        }
        Stmt::Loop { body } => all_hold_in(rules, body.as_slice(), true, room),
        Stmt::Switch { value, arms } => switch_holds(rules, value, arms.as_slice(), room),
        _ => Ok(simple_holds(rules, s, after_call, in_loop)),
    }
}

/// Whether a condition and the statements under it obey the rules.
#[cycle(body)]
fn tested_holds(
    rules: Rules<'_>,
    condition: &Expr,
    body: &[Stmt],
    in_loop: bool,
    room: u32,
) -> Result<bool, Memory>
    ensures right { IfOk result (λ b. b ≡ (is_condition (shape_of (widths_in rules.entry.f.now) condition.now) && all_hold false (map (rule_of rules.entry.f.now rules.entry.labels) body.now) in_loop room)) }
    ensures without { rules.entry.memory ≡ None → IsOk result }
{
    if !may_test(rules.f, condition) {
        return Ok(false);
    }
    all_hold_in(rules, body, in_loop, room)
}

#[cycle(body)]
fn branches_hold(
    rules: Rules<'_>,
    condition: &Expr,
    yes: &[Stmt],
    no: &[Stmt],
    in_loop: bool,
    room: u32,
) -> Result<bool, Memory>
    ensures right { IfOk result (λ b. b ≡ (is_condition (shape_of (widths_in rules.entry.f.now) condition.now) && (all_hold false (map (rule_of rules.entry.f.now rules.entry.labels) yes.now) in_loop room && all_hold false (map (rule_of rules.entry.f.now rules.entry.labels) no.now) in_loop room))) }
    ensures without { rules.entry.memory ≡ None → IsOk result }
{
    let first = tested_holds(rules, condition, yes, in_loop, room)?;
    if !first {
        return Ok(false);
    }
    all_hold_in(rules, no, in_loop, room)
}

#[cycle(body)]
fn switch_holds(rules: Rules<'_>, value: &Expr, arms: &[Arm], room: u32) -> Result<bool, Memory>
    ensures right { IfOk result (λ b. b ≡ (are_cases_of (cases_of arms.now) (shape_of (widths_in rules.entry.f.now) value.now) && arms_right rules.entry.f.now rules.entry.labels arms.now room)) }
    ensures without { rules.entry.memory ≡ None → IsOk result }
{
    let distinct = cases_fit(rules.memory, rules.f, value, arms)?;
    if !distinct {
        return Ok(false);
    }
    arms_hold(rules, arms, room)
}

/// Whether statements obey the rules, where so many levels of statements may stand.
#[cycle(body)]
fn all_hold_in(rules: Rules<'_>, body: &[Stmt], in_loop: bool, room: u32) -> Result<bool, Memory>
    ensures right { IfOk result (λ b. b ≡ all_hold false (map (rule_of rules.entry.f.now rules.entry.labels) body.now) in_loop room) }
    ensures without { rules.entry.memory ≡ None → IsOk result }
{
    let mut after_call = false;
    for s in body {
        if room == 0 {
            return Ok(false);
        }
        let holds = stmt_holds(rules, s, after_call, in_loop, room - 1)?;
        if !holds {
            return Ok(false);
        }
        after_call = takes_extra(s);
    }
    Ok(true)
}

#[cycle(body)]
fn arms_hold(rules: Rules<'_>, arms: &[Arm], room: u32) -> Result<bool, Memory>
    ensures right { IfOk result (λ b. b ≡ arms_right rules.entry.f.now rules.entry.labels arms.now room) }
    ensures without { rules.entry.memory ≡ None → IsOk result }
{
    for arm in arms {
        if !is_named(arm.cases.as_slice()) {
            return Ok(false);
        }
        let holds = all_hold_in(rules, arm.body.as_slice(), false, room)?;
        if !holds {
            return Ok(false);
        }
    }
    Ok(true)
}

/// Whether the statements of a function's body obey the rules, where its next label would have the number `labels`.
pub(crate) fn body_holds(
    memory: Option<Global>,
    f: &CFunction,
    labels: u64,
    body: &[Stmt],
) -> Result<bool, Memory>
    ensures right { IfOk result (λ b. b ≡ all_hold false (map (rule_of f.now labels) body.now) false 256) }
    ensures without { memory ≡ None → IsOk result }
{
    let rules = Rules { f, labels, memory };
    all_hold_in(rules, body, false, 256)
}
