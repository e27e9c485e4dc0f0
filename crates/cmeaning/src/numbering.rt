//! How a body numbers variables, callees and labels: by first appearance in the order of its text.

ghost use Rattle.std.specs.Prelude.{◌≡◌, ◌<◌, ◌^◌, true, false, List, Option, Some, None};
ghost use Rattle.cmeaning.specs.declared.tree.CalleeDecl.{CalleeDecl};
ghost use Rattle.cmeaning.specs.Kinds.{kind_of, computes, calls, nests};
ghost use Rattle.cmeaning.specs.Mentions.{met as met_by, mentioned, numbered, in_expr, in_exprs, in_option, in_target, in_stmt, in_body, in_arm, in_arms, Variable, Callee, LabelLine};

use crate::callees::CalleeDecls;
use crate::tree::{Arm, Expr, Stmt};

/// The numbers that come next.
#[derive(Clone, Copy, Debug, PartialEq, Eq)]
pub struct Next {
    /// The parameters come first, and then the locals that were met.
    pub variable: usize,
    /// How many callees were called.
    pub callee: usize,
    /// Labels are numbered from 1.
    pub label: u64,
}

/// The next number after `x` is met.
fn met(next: usize, x: usize) -> Option<usize>
    requires { x < 2 ^ 63 }
    ensures { result ≡ met_by next x }
{
    if x < next {
        return Some(next);
    }
    if x > next {
        return None;
    }
    Some(next + 1)
}

fn meet_variable(next: Option<Next>, v: u32) -> Option<Next>
    ensures { (c : List CalleeDecl) → result ≡ mentioned c next (Variable v) }
{
    let next = next?;
    let variable = met(next.variable, v as usize)?;
    Some(Next { variable, ..next })
}

fn meet_target(next: Option<Next>, v: Option<u32>) -> Option<Next>
    ensures { (c : List CalleeDecl) → result ≡ numbered c (in_target v) next }
{
    match v {
        None => next,
        Some(v) => meet_variable(next, v),
    }
}

fn meet_callee(callees: &CalleeDecls, next: Option<Next>, address: u64) -> Option<Next>
    ensures { result ≡ mentioned callees.now next (Callee address) }
{
    let next = next?;
    let callee = met(next.callee, callees.place(address))?;
    Some(Next { callee, ..next })
}

fn meet_label(next: Option<Next>, n: u32) -> Option<Next>
    ensures { (c : List CalleeDecl) → result ≡ mentioned c next (LabelLine n) }
{
    let next = next?;
    if next.label != u64::from(n) {
        return None;
    }
    Some(Next {
        label: next.label + 1,
        ..next
    })
}

#[tactic(auto, unfolding(crate::specs::Mentions::in_expr), using(crate::proofs::Mentions::numbered_arithmetic, crate::proofs::Mentions::numbered_division, crate::proofs::Mentions::numbered_signed_division, crate::proofs::Mentions::numbered_shift, crate::proofs::Mentions::numbered_compare, crate::proofs::Mentions::numbered_signed_compare, crate::proofs::Mentions::numbered_concat, crate::proofs::Mentions::numbered_overflow))]
fn number_expr(callees: &CalleeDecls, next: Option<Next>, e: &Expr) -> Option<Next>
    ensures { result ≡ numbered callees.now (in_expr e.now) next }
{
    match e {
        Expr::Const(_) => next,
        Expr::Var(v) => meet_variable(next, *v),
        Expr::Unary(_, a) | Expr::Extend(_, _, a) | Expr::Part(_, _, a) | Expr::Count(_, a) =>
            number_expr(callees, next, a.get()),
        Expr::Arithmetic(_, a, b) => {
            number_expr(callees, number_expr(callees, next, a.get()), b.get())
        }
        Expr::Division(_, a, b) => {
            number_expr(callees, number_expr(callees, next, a.get()), b.get())
        }
        Expr::SignedDivision(_, a, b) => {
            number_expr(callees, number_expr(callees, next, a.get()), b.get())
        }
        Expr::Shift(_, a, b) => number_expr(callees, number_expr(callees, next, a.get()), b.get()),
        Expr::Compare(_, a, b) => {
            number_expr(callees, number_expr(callees, next, a.get()), b.get())
        }
        Expr::SignedCompare(_, a, b) => {
            number_expr(callees, number_expr(callees, next, a.get()), b.get())
        }
        Expr::Concat(a, b) => number_expr(callees, number_expr(callees, next, a.get()), b.get()),
        Expr::Overflow(_, a, b) => {
            number_expr(callees, number_expr(callees, next, a.get()), b.get())
        }
    }
}

fn number_exprs(callees: &CalleeDecls, next: Option<Next>, es: &[Expr]) -> Option<Next>
    ensures { result ≡ numbered callees.now (in_exprs es.now) next }
{
    let mut next = next;
    for e in es {
        next = number_expr(callees, next, e);
    }
    next
}

fn number_option(callees: &CalleeDecls, next: Option<Next>, e: &Option<Expr>) -> Option<Next>
    ensures { result ≡ numbered callees.now (in_option e.now) next }
{
    match e {
        None => next,
        Some(e) => number_expr(callees, next, e),
    }
}

/// The next numbers after a statement that computes or moves a value.
#[tactic(auto, unfolding(crate::specs::Mentions::in_stmt, crate::specs::Mentions::in_arm, crate::specs::Kinds::kind_of), using(crate::proofs::Mentions::numbered_assign, crate::proofs::Mentions::numbered_load, crate::proofs::Mentions::numbered_store, crate::proofs::Mentions::numbered_divide))]
fn number_computation(callees: &CalleeDecls, next: Option<Next>, s: &Stmt) -> Option<Next>
    requires { computes (kind_of s.now) ≡ true }
    ensures { result ≡ numbered callees.now (in_stmt s.now) next }
{
    match s {
        Stmt::Assign { target, value } => {
            number_expr(callees, meet_variable(next, *target), value)
        }
        Stmt::Load {
            target,
            address,
            ..
        } => number_expr(callees, meet_variable(next, *target), address),
        Stmt::Store { address, value, .. } => {
            number_expr(callees, number_expr(callees, next, address), value)
        }
        Stmt::Divide {
            target,
            left,
            right,
            ..
        } => number_expr(
            callees,
            number_expr(callees, meet_variable(next, *target), left),
            right,
        ),
        _ => unreachable!(),
    }
}

/// The next numbers after a call, or after a statement that takes what one has left.
#[tactic(auto, unfolding(crate::specs::Mentions::in_stmt, crate::specs::Mentions::in_arm, crate::specs::Kinds::kind_of), using(crate::proofs::Mentions::numbered_call, crate::proofs::Mentions::numbered_call_ind, crate::proofs::Mentions::numbered_other))]
fn number_call(callees: &CalleeDecls, next: Option<Next>, s: &Stmt) -> Option<Next>
    requires { calls (kind_of s.now) ≡ true }
    ensures { result ≡ numbered callees.now (in_stmt s.now) next }
{
    match s {
        Stmt::Call {
            target,
            callee,
            args,
        } => number_exprs(
            callees,
            meet_callee(callees, meet_target(next, *target), *callee),
            args.as_slice(),
        ),
        Stmt::CallInd {
            target,
            callee,
            args,
        } => number_exprs(
            callees,
            number_expr(callees, meet_target(next, *target), callee),
            args.as_slice(),
        ),
        Stmt::Other { target, args, .. } => {
            number_exprs(callees, meet_target(next, *target), args.as_slice())
        }
        Stmt::Extra { target, .. } => meet_variable(next, *target),
        _ => unreachable!(),
    }
}

/// The next numbers after a statement without statements in it.
#[tactic(auto, unfolding(crate::specs::Mentions::in_stmt, crate::specs::Kinds::kind_of))]
fn number_simple(callees: &CalleeDecls, next: Option<Next>, s: &Stmt) -> Option<Next>
    requires { nests (kind_of s.now) ≡ false }
    ensures { result ≡ numbered callees.now (in_stmt s.now) next }
{
    match s {
        Stmt::Call { .. } | Stmt::CallInd { .. } | Stmt::Other { .. } | Stmt::Extra { .. } => {
            number_call(callees, next, s)
        }
        Stmt::Break | Stmt::Goto(_) => next,
        Stmt::Label(n) => meet_label(next, *n),
        Stmt::Return(e) => number_option(callees, next, e),
        _ => number_computation(callees, next, s),
    }
}

#[cycle(numbering)]
#[tactic(auto, unfolding(crate::specs::Mentions::in_stmt, crate::specs::Mentions::in_arm, crate::specs::Kinds::kind_of), using(crate::proofs::Mentions::numbered_if, crate::proofs::Mentions::numbered_if_else, crate::proofs::Mentions::numbered_while, crate::proofs::Mentions::numbered_do_while, crate::proofs::Mentions::numbered_switch))]
fn number_stmt(callees: &CalleeDecls, next: Option<Next>, s: &Stmt) -> Option<Next>
    ensures { result ≡ numbered callees.now (in_stmt s.now) next }
{
    match s {
        Stmt::If { condition, body } => number_body(
            callees,
            number_expr(callees, next, condition),
            body.as_slice(),
        ),
        Stmt::IfElse { condition, yes, no } => number_body(
            callees,
            number_body(
                callees,
                number_expr(callees, next, condition),
                yes.as_slice(),
            ),
            no.as_slice(),
        ),
        Stmt::While { condition, body } => number_body(
            callees,
            number_expr(callees, next, condition),
            body.as_slice(),
        ),
        Stmt::DoWhile { body, condition } => number_expr(
            callees,
            number_body(callees, next, body.as_slice()),
            condition,
        ),
        Stmt::Loop { body } => number_body(callees, next, body.as_slice()),
        Stmt::Switch { value, arms } => {
            number_arms(callees, number_expr(callees, next, value), arms.as_slice())
        }
        _ => number_simple(callees, next, s),
    }
}

/// The next numbers after a body.
#[cycle(numbering)]
pub(crate) fn number_body(callees: &CalleeDecls, next: Option<Next>, body: &[Stmt]) -> Option<Next>
    ensures { result ≡ numbered callees.now (in_body body.now) next }
{
    let mut next = next;
    for s in body {
        next = number_stmt(callees, next, s);
    }
    next
}

#[cycle(numbering)]
fn number_arms(callees: &CalleeDecls, next: Option<Next>, arms: &[Arm]) -> Option<Next>
    ensures { result ≡ numbered callees.now (in_arms arms.now) next }
{
    let mut next = next;
    for arm in arms {
        next = number_body(callees, next, arm.body.as_slice());
    }
    next
}
