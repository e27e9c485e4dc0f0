//! Gotos of a function, and ops of a listing.

ghost use Rattle.std.specs.Prelude.{◌≡◌, ◌+◌, IfOk, length};
ghost use Rattle.pcode_model.specs.WellFormed.{total_ops};
ghost use Rattle.summary.specs.Gotos.{gotos_of, in_arms, in_body, in_stmt};

use bits_core::Memory;
use cmeaning::{Arm, CFunction, Stmt};
use pcode_model::{Instruction, Listing};

/// So many more. A sum past 64 bits has no memory.
fn more(before: u64, count: u64) -> Result<u64, Memory>
    ensures { IfOk result (λ n. n ≡ before + count) }
{
    match before.checked_add(count) {
        Some(n) => Ok(n),
        None => Err(Memory),
    }
}

#[cycle(gotos)]
#[tactic(auto, unfolding(crate::specs::Gotos::in_stmt, crate::specs::Gotos::in_arm))]
fn after_stmt(before: u64, s: &Stmt) -> Result<u64, Memory>
    ensures { IfOk result (λ n. n ≡ before + in_stmt s.now) }
{
    match s {
        Stmt::Goto(_) => more(before, 1),
        Stmt::If { body, .. }
        | Stmt::While { body, .. }
        | Stmt::DoWhile { body, .. }
        | Stmt::Loop { body } => after_body(before, body.as_slice()),
        Stmt::IfElse { yes, no, .. } => {
            after_body(after_body(before, yes.as_slice())?, no.as_slice())
        }
        Stmt::Switch { arms, .. } => after_arms(before, arms.as_slice()),
        _ => Ok(before),
    }
}

#[cycle(gotos)]
fn after_body(before: u64, body: &[Stmt]) -> Result<u64, Memory>
    ensures { IfOk result (λ n. n ≡ before + in_body body.now) }
{
    let mut count = before;
    for s in body {
        count = after_stmt(count, s)?;
    }
    Ok(count)
}

#[cycle(gotos)]
fn after_arms(before: u64, arms: &[Arm]) -> Result<u64, Memory>
    ensures { IfOk result (λ n. n ≡ before + in_arms arms.now) }
{
    let mut count = before;
    for arm in arms {
        count = after_body(count, arm.body.as_slice())?;
    }
    Ok(count)
}

/// How many gotos a function has.
pub fn gotos_in(f: &CFunction) -> Result<u64, Memory>
    ensures { IfOk result (λ n. n ≡ gotos_of f.now) }
{
    after_body(0, f.body.as_slice())
}

fn ops_of(code: &[Instruction]) -> Result<u64, Memory>
    ensures { IfOk result (λ n. n ≡ total_ops code.now) }
{
    let mut count = 0u64;
    for instruction in code {
        count = more(count, instruction.ops.len() as u64)?;
    }
    Ok(count)
}

/// How many ops a listing has.
pub fn ops_in(listing: &Listing) -> Result<u64, Memory>
    ensures { IfOk result (λ n. n ≡ total_ops listing.now.code) }
{
    ops_of(listing.code.as_slice())
}
