//! Making flat code, in the order of the text.

ghost use Rattle.std.specs.Prelude.{◌≡◌, ◌++◌, map, IfOk, OnOk};
ghost use Rattle.cmeaning.specs.Flat.{arm_cases, cases_at, flat_of, piece_of, pieces_of, returns_by};
ghost use Rattle.cmeaning.specs.declared.tree.Stmt.TheVariants as S;
ghost use Rattle.flatcode.specs.Steps.{arm_of, arms_of, case_of, code_of};
ghost use Rattle.flatcode.specs.Adds.{Puts, PutsAll, PutsArm, PutsArms};

use crate::draft::{Draft, put_label, put_step};
use crate::labels::table_of;
use crate::spans::{after, arm_span, arms_span, last_leaves, spans};
use crate::step::{Case, Cases, FlatCode, Step};
use bits_core::Memory;
use cmeaning::{Arm, CFunction, CalleeDecl, Expr, Stmt};
use sqlite_items::Items;
use std::alloc::Global;

/// Case values with a position.
fn put_cases(cases: &mut Cases, values: &[u128], position: usize) -> Result<(), Memory>
    ensures { OnOk result (map case_of cases.new ≡ map case_of cases.old ++ cases_at position values.now) }
{
    for value in values {
        cases.push(Case {
            value: *value,
            position,
        })?;
    }
    Ok(())
}

/// The case values of arms, the first of which begins at a position.
fn cases_of(
    alloc: Global,
    callees: &[CalleeDecl],
    arms: &[Arm],
    first: usize,
) -> Result<Cases, Memory>
    ensures { IfOk result (λ cases. map case_of cases ≡ arm_cases (arms_of (returns_by callees.now) arms.now) first) }
{
    let mut cases = Items::new(alloc);
    let mut position = first;
    for arm in arms {
        put_cases(&mut cases, arm.cases.as_slice(), position)?;
        position = after(position, arm_span(callees, arm)?)?;
    }
    Ok(cases)
}

#[cycle(bodies)]
fn put_if<'a>(
    alloc: Global,
    callees: &[CalleeDecl],
    condition: &'a Expr,
    body: &'a [Stmt],
    out: usize,
    code: &mut Draft<'a>,
) -> Result<(), Memory>
    ensures { OnOk result (Puts code.old code.new (piece_of (returns_by callees.now) (S.If condition.now body.now)) out) }
{
    let first = after(code.steps.len(), 1)?;
    let no = after(first, spans(callees, body)?)?;
    put_step(
        code,
        Step::Test {
            condition,
            yes: first,
            no,
        },
    )?;
    put_body(alloc, callees, body, out, code)
}

#[cycle(bodies)]
fn put_if_else<'a>(
    alloc: Global,
    callees: &[CalleeDecl],
    condition: &'a Expr,
    body: &'a [Stmt],
    other: &'a [Stmt],
    out: usize,
    code: &mut Draft<'a>,
) -> Result<(), Memory>
    ensures { OnOk result
        (Puts code.old code.new (piece_of (returns_by callees.now) (S.IfElse condition.now body.now other.now)) out) }
{
    let first = after(code.steps.len(), 1)?;
    let no = after(after(first, spans(callees, body)?)?, 1)?;
    let end = after(no, spans(callees, other)?)?;
    put_step(
        code,
        Step::Test {
            condition,
            yes: first,
            no,
        },
    )?;
    put_body(alloc, callees, body, out, code)?;
    put_step(code, Step::Jump(end))?;
    put_body(alloc, callees, other, out, code)
}

#[cycle(bodies)]
fn put_while<'a>(
    alloc: Global,
    callees: &[CalleeDecl],
    condition: &'a Expr,
    body: &'a [Stmt],
    out: usize,
    code: &mut Draft<'a>,
) -> Result<(), Memory>
    ensures { OnOk result
        (Puts code.old code.new (piece_of (returns_by callees.now) (S.While condition.now body.now)) out) }
{
    let start = code.steps.len();
    let first = after(start, 1)?;
    let end = after(after(first, spans(callees, body)?)?, 1)?;
    put_step(
        code,
        Step::Test {
            condition,
            yes: first,
            no: end,
        },
    )?;
    put_body(alloc, callees, body, end, code)?;
    put_step(code, Step::Jump(start))
}

#[cycle(bodies)]
fn put_do_while<'a>(
    alloc: Global,
    callees: &[CalleeDecl],
    condition: &'a Expr,
    body: &'a [Stmt],
    out: usize,
    code: &mut Draft<'a>,
) -> Result<(), Memory>
    ensures { OnOk result
        (Puts code.old code.new (piece_of (returns_by callees.now) (S.DoWhile body.now condition.now)) out) }
{
    let start = code.steps.len();
    let end = after(after(start, spans(callees, body)?)?, 1)?;
    put_body(alloc, callees, body, end, code)?;
    put_step(
        code,
        Step::Test {
            condition,
            yes: start,
            no: end,
        },
    )
}

#[cycle(bodies)]
fn put_loop<'a>(
    alloc: Global,
    callees: &[CalleeDecl],
    body: &'a [Stmt],
    out: usize,
    code: &mut Draft<'a>,
) -> Result<(), Memory>
    ensures { OnOk result (Puts code.old code.new (piece_of (returns_by callees.now) (S.Loop body.now)) out) }
{
    let start = code.steps.len();
    let end = after(after(start, spans(callees, body)?)?, 1)?;
    put_body(alloc, callees, body, end, code)?;
    put_step(code, Step::Jump(start))
}

/// An arm of a switch that ends at `past`, with the jump past the switch where its text has a `break;`.
#[cycle(bodies)]
fn put_arm<'a>(
    alloc: Global,
    callees: &[CalleeDecl],
    arm: &'a Arm,
    out: usize,
    past: usize,
    code: &mut Draft<'a>,
) -> Result<(), Memory>
    ensures { OnOk result (PutsArm code.old code.new (arm_of (returns_by callees.now) arm.now) out past) }
{
    put_body(alloc, callees, arm.body.as_slice(), out, code)?;
    if last_leaves(callees, arm.body.as_slice()) {
        return Ok(());
    }
    put_step(code, Step::Jump(past))
}

#[cycle(bodies)]
fn put_arms<'a>(
    alloc: Global,
    callees: &[CalleeDecl],
    arms: &'a [Arm],
    out: usize,
    past: usize,
    code: &mut Draft<'a>,
) -> Result<(), Memory>
    ensures { OnOk result (PutsArms code.old code.new (arms_of (returns_by callees.now) arms.now) out past) }
{
    for arm in arms {
        put_arm(alloc, callees, arm, out, past, code)?;
    }
    Ok(())
}

#[cycle(bodies)]
fn put_switch<'a>(
    alloc: Global,
    callees: &[CalleeDecl],
    value: &'a Expr,
    arms: &'a [Arm],
    out: usize,
    code: &mut Draft<'a>,
) -> Result<(), Memory>
    ensures { OnOk result (Puts code.old code.new (piece_of (returns_by callees.now) (S.Switch value.now arms.now)) out) }
{
    let first = after(code.steps.len(), 1)?;
    let other = after(first, arms_span(callees, arms)?)?;
    let cases = cases_of(alloc, callees, arms, first)?;
    put_step(
        code,
        Step::Choose {
            value,
            cases,
            other,
        },
    )?;
    put_arms(alloc, callees, arms, out, other, code)
}

/// The steps of a statement, where `out` is the position behind the innermost loop.
#[cycle(bodies)]
#[tactic(auto, unfolding(cmeaning::specs::Flat::piece_of))]
fn put_stmt<'a>(
    alloc: Global,
    callees: &[CalleeDecl],
    s: &'a Stmt,
    out: usize,
    code: &mut Draft<'a>,
) -> Result<(), Memory>
    ensures { OnOk result (Puts code.old code.new (piece_of (returns_by callees.now) s.now) out) }
{
    match s {
        Stmt::Assign { .. } => put_step(code, Step::Do(s)),
        Stmt::Load { .. } => put_step(code, Step::Do(s)),
        Stmt::Store { .. } => put_step(code, Step::Do(s)),
        Stmt::Call { .. } => put_step(code, Step::Do(s)),
        Stmt::CallInd { .. } => put_step(code, Step::Do(s)),
        Stmt::Other { .. } => put_step(code, Step::Do(s)),
        Stmt::Extra { .. } => put_step(code, Step::Do(s)),
        Stmt::Divide { .. } => put_step(code, Step::Do(s)),
        Stmt::If { condition, body } => {
            put_if(alloc, callees, condition, body.as_slice(), out, code)
        }
        Stmt::IfElse { condition, yes, no } => put_if_else(
            alloc,
            callees,
            condition,
            yes.as_slice(),
            no.as_slice(),
            out,
            code,
        ),
        Stmt::While { condition, body } => {
            put_while(alloc, callees, condition, body.as_slice(), out, code)
        }
        Stmt::DoWhile { body, condition } => {
            put_do_while(alloc, callees, condition, body.as_slice(), out, code)
        }
        Stmt::Loop { body } => put_loop(alloc, callees, body.as_slice(), out, code),
        Stmt::Break => put_step(code, Step::Jump(out)),
        Stmt::Switch { value, arms } => {
            put_switch(alloc, callees, value, arms.as_slice(), out, code)
        }
        Stmt::Goto(n) => put_step(code, Step::Goto(*n)),
        Stmt::Label(n) => put_label(code, *n),
        Stmt::Return(e) => put_step(code, Step::Give(e)),
    }
}

/// The steps of statements one after another.
#[cycle(bodies)]
fn put_body<'a>(
    alloc: Global,
    callees: &[CalleeDecl],
    body: &'a [Stmt],
    out: usize,
    code: &mut Draft<'a>,
) -> Result<(), Memory>
    ensures { OnOk result (PutsAll code.old code.new (pieces_of (returns_by callees.now) body.now) out) }
{
    for s in body {
        put_stmt(alloc, callees, s, out, code)?;
    }
    Ok(())
}

/// The flat code of a function.
pub fn flat<'a>(alloc: Global, f: &'a CFunction) -> Result<FlatCode<'a>, Memory>
    ensures { IfOk result (λ code. code_of code ≡ flat_of f.now) }
{
    let callees = f.callees.as_slice();
    let body = f.body.as_slice();
    let end = spans(callees, body)?;
    let mut code = Draft {
        steps: Vec::new(alloc),
        labels: Vec::new(alloc),
    };
    put_body(alloc, callees, body, end, &mut code)?;
    let labels = table_of(alloc, code.labels.as_slice())?;
    let Draft { steps, .. } = code;
    Ok(FlatCode { steps, labels, end })
}
