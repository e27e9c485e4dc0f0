//! A body again, with its numbers by first appearance.

ghost use Rattle.std.specs.Prelude.{◌≡◌, true, false, map, IfOk};
ghost use Rattle.std.specs.Option.{option_map};
ghost use Rattle.cmeaning.specs.Kinds.{kind_of, computes, calls, nests};
ghost use Rattle.cmeaning.specs.declared.tree.Stmt.TheVariants as S;
ghost use Rattle.naming.specs.Renamed.{expr_by, exprs_by, option_by, target_by, stmt_by, arm_by, body_by};
ghost use Rattle.naming.specs.First.{names_of, order_of, named_body};

use crate::note::note_body;
use crate::order::Order;
use bits_core::Memory;
use cmeaning::{Arm, Arms, Body, Expr, Exprs, Stmt};
use pcode_model::Name;
use sqlite_items::{Boxed, Items};
use std::alloc::Global;

// ---- expressions

#[cycle(terms)]
#[tactic(auto, unfolding(crate::specs::Renamed::expr_by))]
fn expr(alloc: Global, order: &Order, e: &Expr) -> Result<Expr, Memory>
    ensures { IfOk result (λ r. r ≡ expr_by (names_of order.now) e.now) }
{
    match e {
        Expr::Const(c) => Ok(Expr::Const(*c)),
        Expr::Var(v) => Ok(Expr::Var(order.variable(*v)?)),
        Expr::Unary(op, a) => Ok(Expr::Unary(*op, boxed(alloc, order, a.get())?)),
        Expr::Arithmetic(op, a, b) => {
            let (a, b) = two(alloc, order, a.get(), b.get())?;
            Ok(Expr::Arithmetic(*op, a, b))
        }
        Expr::Division(op, a, b) => {
            let (a, b) = two(alloc, order, a.get(), b.get())?;
            Ok(Expr::Division(*op, a, b))
        }
        Expr::SignedDivision(op, a, b) => {
            let (a, b) = two(alloc, order, a.get(), b.get())?;
            Ok(Expr::SignedDivision(*op, a, b))
        }
        Expr::Shift(op, a, b) => {
            let (a, b) = two(alloc, order, a.get(), b.get())?;
            Ok(Expr::Shift(*op, a, b))
        }
        Expr::Compare(op, a, b) => {
            let (a, b) = two(alloc, order, a.get(), b.get())?;
            Ok(Expr::Compare(*op, a, b))
        }
        Expr::SignedCompare(op, a, b) => {
            let (a, b) = two(alloc, order, a.get(), b.get())?;
            Ok(Expr::SignedCompare(*op, a, b))
        }
        Expr::Extend(op, w, a) => Ok(Expr::Extend(*op, *w, boxed(alloc, order, a.get())?)),
        Expr::Part(dropped, w, a) => Ok(Expr::Part(*dropped, *w, boxed(alloc, order, a.get())?)),
        Expr::Concat(a, b) => {
            let (a, b) = two(alloc, order, a.get(), b.get())?;
            Ok(Expr::Concat(a, b))
        }
        Expr::Overflow(op, a, b) => {
            let (a, b) = two(alloc, order, a.get(), b.get())?;
            Ok(Expr::Overflow(*op, a, b))
        }
        Expr::Count(op, a) => Ok(Expr::Count(*op, boxed(alloc, order, a.get())?)),
    }
}

#[cycle(terms)]
fn boxed(alloc: Global, order: &Order, a: &Expr) -> Result<Boxed<Expr>, Memory>
    ensures { IfOk result (λ r. r ≡ expr_by (names_of order.now) a.now) }
{
    let a = expr(alloc, order, a)?;
    Ok(Boxed::new(alloc, a)?)
}

#[cycle(terms)]
fn two(
    alloc: Global,
    order: &Order,
    a: &Expr,
    b: &Expr,
) -> Result<(Boxed<Expr>, Boxed<Expr>), Memory>
    ensures { IfOk result (λ r. (r.0 ≡ expr_by (names_of order.now) a.now) × (r.1 ≡ expr_by (names_of order.now) b.now)) }
{
    let a = boxed(alloc, order, a)?;
    let b = boxed(alloc, order, b)?;
    Ok((a, b))
}

fn exprs(alloc: Global, order: &Order, es: &[Expr]) -> Result<Exprs, Memory>
    ensures { IfOk result (λ r. r ≡ exprs_by (names_of order.now) es.now) }
{
    let mut made = Items::new(alloc);
    for e in es {
        made.push(expr(alloc, order, e)?)?;
    }
    Ok(made)
}

fn option(alloc: Global, order: &Order, e: &Option<Expr>) -> Result<Option<Expr>, Memory>
    ensures { IfOk result (λ r. r ≡ option_by (names_of order.now) e.now) }
{
    match e {
        None => Ok(None),
        Some(e) => Ok(Some(expr(alloc, order, e)?)),
    }
}

fn target(order: &Order, v: Option<u32>) -> Result<Option<u32>, Memory>
    ensures { IfOk result (λ r. r ≡ target_by (names_of order.now) v) }
{
    match v {
        None => Ok(None),
        Some(v) => Ok(Some(order.variable(v)?)),
    }
}

// ---- statements

fn space(alloc: Global, name: &Option<Name>) -> Result<Option<Name>, Memory>
    ensures { IfOk result (λ r. r ≡ name.now) }
{
    match name {
        None => Ok(None),
        Some(name) => Ok(Some(Items::from_slice(alloc, name.as_slice())?)),
    }
}

/// A statement that computes or moves a value.
#[tactic(auto, unfolding(crate::specs::Renamed::stmt_by, cmeaning::specs::Kinds::kind_of))]
fn computation(alloc: Global, order: &Order, s: &Stmt) -> Result<Stmt, Memory>
    requires { computes (kind_of s.now) ≡ true }
    ensures { IfOk result (λ r. r ≡ stmt_by (names_of order.now) s.now) }
{
    match s {
        Stmt::Assign { target, value } => {
            let target = order.variable(*target)?;
            let value = expr(alloc, order, value)?;
            Ok(Stmt::Assign { target, value })
        }
        Stmt::Load {
            target,
            space: name,
            address,
        } => {
            let target = order.variable(*target)?;
            let space = space(alloc, name)?;
            let address = expr(alloc, order, address)?;
            Ok(Stmt::Load {
                target,
                space,
                address,
            })
        }
        Stmt::Store {
            space: name,
            address,
            value,
        } => {
            let space = space(alloc, name)?;
            let address = expr(alloc, order, address)?;
            let value = expr(alloc, order, value)?;
            Ok(Stmt::Store {
                space,
                address,
                value,
            })
        }
        Stmt::Divide {
            target,
            op,
            left,
            right,
        } => {
            let target = order.variable(*target)?;
            let left = expr(alloc, order, left)?;
            let right = expr(alloc, order, right)?;
            Ok(Stmt::Divide {
                target,
                op: *op,
                left,
                right,
            })
        }
        _ => unreachable!(),
    }
}

/// A call, or a statement that takes what one has left.
#[tactic(auto, unfolding(crate::specs::Renamed::stmt_by, cmeaning::specs::Kinds::kind_of))]
fn call(alloc: Global, order: &Order, s: &Stmt) -> Result<Stmt, Memory>
    requires { calls (kind_of s.now) ≡ true }
    ensures { IfOk result (λ r. r ≡ stmt_by (names_of order.now) s.now) }
{
    match s {
        Stmt::Call {
            target: v,
            callee,
            args,
        } => {
            let target = target(order, *v)?;
            let args = exprs(alloc, order, args.as_slice())?;
            Ok(Stmt::Call {
                target,
                callee: *callee,
                args,
            })
        }
        Stmt::CallInd {
            target: v,
            callee,
            args,
        } => {
            let target = target(order, *v)?;
            let callee = expr(alloc, order, callee)?;
            let args = exprs(alloc, order, args.as_slice())?;
            Ok(Stmt::CallInd {
                target,
                callee,
                args,
            })
        }
        Stmt::Other {
            target: v,
            index,
            args,
        } => {
            let target = target(order, *v)?;
            let args = exprs(alloc, order, args.as_slice())?;
            Ok(Stmt::Other {
                target,
                index: *index,
                args,
            })
        }
        Stmt::Extra { target, offset } => {
            let target = order.variable(*target)?;
            Ok(Stmt::Extra {
                target,
                offset: *offset,
            })
        }
        _ => unreachable!(),
    }
}

/// A statement without statements in it.
#[tactic(auto, unfolding(crate::specs::Renamed::stmt_by, cmeaning::specs::Kinds::kind_of))]
fn simple(alloc: Global, order: &Order, s: &Stmt) -> Result<Stmt, Memory>
    requires { nests (kind_of s.now) ≡ false }
    ensures { IfOk result (λ r. r ≡ stmt_by (names_of order.now) s.now) }
{
    match s {
        Stmt::Call { .. } | Stmt::CallInd { .. } | Stmt::Other { .. } | Stmt::Extra { .. } => {
            call(alloc, order, s)
        }
        Stmt::Break => Ok(Stmt::Break),
        Stmt::Goto(n) => Ok(Stmt::Goto(order.label(*n)?)),
        Stmt::Label(n) => Ok(Stmt::Label(order.label(*n)?)),
        Stmt::Return(e) => Ok(Stmt::Return(option(alloc, order, e)?)),
        _ => computation(alloc, order, s),
    }
}

/// A statement with statements in it.
#[cycle(walk)]
#[tactic(auto, unfolding(crate::specs::Renamed::stmt_by, crate::specs::Renamed::arm_by, cmeaning::specs::Kinds::kind_of))]
fn stmt(alloc: Global, order: &Order, s: &Stmt) -> Result<Stmt, Memory>
    ensures { IfOk result (λ r. r ≡ stmt_by (names_of order.now) s.now) }
{
    match s {
        Stmt::If { condition, body } => conditional(alloc, order, condition, body.as_slice()),
        Stmt::IfElse { condition, yes, no } => {
            either(alloc, order, condition, yes.as_slice(), no.as_slice())
        }
        Stmt::While { condition, body } => tested_first(alloc, order, condition, body.as_slice()),
        Stmt::DoWhile { body, condition } => tested_last(alloc, order, body.as_slice(), condition),
        Stmt::Loop { body } => endless(alloc, order, body.as_slice()),
        Stmt::Switch { value, arms } => switch(alloc, order, value, arms.as_slice()),
        _ => simple(alloc, order, s),
    }
}

#[cycle(walk)]
#[tactic(auto, unfolding(crate::specs::Renamed::stmt_by, crate::specs::Renamed::arm_by))]
fn conditional(
    alloc: Global,
    order: &Order,
    condition: &Expr,
    inner: &[Stmt],
) -> Result<Stmt, Memory>
    ensures { IfOk result (λ r. r ≡ S.If (expr_by (names_of order.now) condition.now) (body_by (names_of order.now) inner.now)) }
{
    let condition = expr(alloc, order, condition)?;
    let body = renamed(alloc, order, inner)?;
    Ok(Stmt::If { condition, body })
}

#[cycle(walk)]
fn either(
    alloc: Global,
    order: &Order,
    condition: &Expr,
    yes: &[Stmt],
    no: &[Stmt],
) -> Result<Stmt, Memory>
    ensures { IfOk result (λ r. r ≡ S.IfElse (expr_by (names_of order.now) condition.now) (body_by (names_of order.now) yes.now) (body_by (names_of order.now) no.now)) }
{
    let condition = expr(alloc, order, condition)?;
    let yes = renamed(alloc, order, yes)?;
    let no = renamed(alloc, order, no)?;
    Ok(Stmt::IfElse { condition, yes, no })
}

#[cycle(walk)]
fn tested_first(
    alloc: Global,
    order: &Order,
    condition: &Expr,
    inner: &[Stmt],
) -> Result<Stmt, Memory>
    ensures { IfOk result (λ r. r ≡ S.While (expr_by (names_of order.now) condition.now) (body_by (names_of order.now) inner.now)) }
{
    let condition = expr(alloc, order, condition)?;
    let body = renamed(alloc, order, inner)?;
    Ok(Stmt::While { condition, body })
}

#[cycle(walk)]
fn tested_last(
    alloc: Global,
    order: &Order,
    inner: &[Stmt],
    condition: &Expr,
) -> Result<Stmt, Memory>
    ensures { IfOk result (λ r. r ≡ S.DoWhile (body_by (names_of order.now) inner.now) (expr_by (names_of order.now) condition.now)) }
{
    let body = renamed(alloc, order, inner)?;
    let condition = expr(alloc, order, condition)?;
    Ok(Stmt::DoWhile { body, condition })
}

#[cycle(walk)]
fn endless(alloc: Global, order: &Order, inner: &[Stmt]) -> Result<Stmt, Memory>
    ensures { IfOk result (λ r. r ≡ S.Loop (body_by (names_of order.now) inner.now)) }
{
    let body = renamed(alloc, order, inner)?;
    Ok(Stmt::Loop { body })
}

#[cycle(walk)]
fn switch(alloc: Global, order: &Order, value: &Expr, inner: &[Arm]) -> Result<Stmt, Memory>
    ensures { IfOk result (λ r. r ≡ S.Switch (expr_by (names_of order.now) value.now) (map (arm_by (names_of order.now)) inner.now)) }
{
    let value = expr(alloc, order, value)?;
    let arms = arms(alloc, order, inner)?;
    Ok(Stmt::Switch { value, arms })
}

#[cycle(walk)]
fn renamed(alloc: Global, order: &Order, body: &[Stmt]) -> Result<Body, Memory>
    ensures { IfOk result (λ r. r ≡ body_by (names_of order.now) body.now) }
{
    let mut made = Items::new(alloc);
    for s in body {
        made.push(stmt(alloc, order, s)?)?;
    }
    Ok(made)
}

#[cycle(walk)]
fn arms(alloc: Global, order: &Order, arms: &[Arm]) -> Result<Arms, Memory>
    ensures { IfOk result (λ r. r ≡ map (arm_by (names_of order.now)) arms.now) }
{
    let mut made = Items::new(alloc);
    for a in arms {
        made.push(arm(alloc, order, a)?)?;
    }
    Ok(made)
}

#[cycle(walk)]
#[tactic(auto, unfolding(crate::specs::Renamed::stmt_by, crate::specs::Renamed::arm_by))]
fn arm(alloc: Global, order: &Order, arm: &Arm) -> Result<Arm, Memory>
    ensures { IfOk result (λ r. r ≡ arm_by (names_of order.now) arm.now) }
{
    let cases = Items::from_slice(alloc, arm.cases.as_slice())?;
    let body = renamed(alloc, order, arm.body.as_slice())?;
    Ok(Arm { cases, body })
}

// ---- bodies

/// A body with its numbers by first appearance.
#[derive(Drop)]
pub struct NamedBody {
    /// What it mentions, by the numbers before.
    pub order: Order,
    pub body: Body,
}

/// The body with its numbers by first appearance, beside so many parameters.
pub fn named(alloc: Global, params: u32, body: Body) -> Result<NamedBody, Memory>
    ensures order { IfOk result (λ n. n.order ≡ order_of params body) }
    ensures body { IfOk result (λ n. n.body ≡ named_body params body) }
{
    let order = note_body(Order::new(alloc, params), body.as_slice())?;
    let body = renamed(alloc, &order, body.as_slice())?;
    Ok(NamedBody { order, body })
}
