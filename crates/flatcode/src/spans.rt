//! How many steps statements make, and which leave their body.

ghost use Rattle.std.specs.Prelude.{◌≡◌, ◌+◌, IfOk, false};
ghost use Rattle.cmeaning.specs.Flat.{arm_span as span_of_arm, arm_spans, last_leaves, piece_of, pieces_of, returns_by, spans as span_sum};
ghost use Rattle.flatcode.specs.Steps.{arm_of, arms_of};

use bits_core::Memory;
use cmeaning::{Arm, CalleeDecl, Stmt};

/// Whether the callee at an address is declared to return; one without a declaration does.
pub fn returns(callees: &[CalleeDecl], address: u64) -> bool
    ensures { result ≡ returns_by callees.now address }
{
    for c in callees {
        if c.address == address {
            return c.returns;
        }
    }
    true
}

/// So many steps after a position. Steps past the machine's numbers have no memory.
pub(crate) fn after(position: usize, count: usize) -> Result<usize, Memory>
    ensures { IfOk result (λ n. n ≡ position + count) }
{
    match position.checked_add(count) {
        Some(n) => Ok(n),
        None => Err(Memory),
    }
}

/// Whether it is a return, a goto or a call of a callee that doesn't return.
#[tactic(auto, unfolding(cmeaning::specs::Flat::piece_of))]
fn leaves(callees: &[CalleeDecl], s: &Stmt) -> bool
    ensures { result ≡ (piece_of (returns_by callees.now) s.now).leaves }
{
    match s {
        Stmt::Call { callee, .. } => !returns(callees, *callee),
        Stmt::Goto(_) => true,
        Stmt::Return(_) => true,
        _ => false,
    }
}

/// Whether the last of these statements leaves.
pub(crate) fn last_leaves(callees: &[CalleeDecl], body: &[Stmt]) -> bool
    ensures { result ≡ last_leaves false (pieces_of (returns_by callees.now) body.now) }
{
    let mut last = false;
    for s in body {
        last = leaves(callees, s);
    }
    last
}

/// How many steps a statement makes.
#[cycle(spans)]
#[tactic(auto, unfolding(cmeaning::specs::Flat::piece_of))]
fn span(callees: &[CalleeDecl], s: &Stmt) -> Result<usize, Memory>
    ensures { IfOk result (λ n. n ≡ (piece_of (returns_by callees.now) s.now).span) }
{
    match s {
        Stmt::If { body, .. } => after(1, spans(callees, body.as_slice())?),
        Stmt::IfElse { yes, no, .. } => {
            let rest = after(1, spans(callees, no.as_slice())?)?;
            after(1, after(spans(callees, yes.as_slice())?, rest)?)
        }
        Stmt::While { body, .. } => after(1, after(spans(callees, body.as_slice())?, 1)?),
        Stmt::DoWhile { body, .. } => after(spans(callees, body.as_slice())?, 1),
        Stmt::Loop { body } => after(spans(callees, body.as_slice())?, 1),
        Stmt::Switch { arms, .. } => after(1, arms_span(callees, arms.as_slice())?),
        Stmt::Label(_) => Ok(0),
        _ => Ok(1),
    }
}

/// How many steps statements make.
#[cycle(spans)]
pub(crate) fn spans(callees: &[CalleeDecl], body: &[Stmt]) -> Result<usize, Memory>
    ensures { IfOk result (λ n. n ≡ span_sum (pieces_of (returns_by callees.now) body.now)) }
{
    let mut sum = 0;
    for s in body {
        sum = after(sum, span(callees, s)?)?;
    }
    Ok(sum)
}

/// How many steps an arm of a switch makes.
#[cycle(spans)]
pub(crate) fn arm_span(callees: &[CalleeDecl], arm: &Arm) -> Result<usize, Memory>
    ensures { IfOk result (λ n. n ≡ span_of_arm (arm_of (returns_by callees.now) arm.now)) }
{
    let body = spans(callees, arm.body.as_slice())?;
    if last_leaves(callees, arm.body.as_slice()) {
        return Ok(body);
    }
    after(1, body)
}

/// How many steps arms of a switch make.
#[cycle(spans)]
pub(crate) fn arms_span(callees: &[CalleeDecl], arms: &[Arm]) -> Result<usize, Memory>
    ensures { IfOk result (λ n. n ≡ arm_spans (arms_of (returns_by callees.now) arms.now)) }
{
    let mut sum = 0;
    for arm in arms {
        sum = after(sum, arm_span(callees, arm)?)?;
    }
    Ok(sum)
}
