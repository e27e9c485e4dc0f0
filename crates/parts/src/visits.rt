//! Visits of the variables that are read.

ghost use Rattle.std.specs.Prelude.{◌≡◌, ◌++◌, ℕ, OnOk};
ghost use Rattle.parts.specs.Exprs.{variables};
ghost use Rattle.parts.specs.Stmts.{args_of};
ghost use Rattle.parts.specs.Visits.{visited, all_variables};

use bits_core::Memory;
use cmeaning::{Expr, Stmt};

/// What takes note of variables, one after another.
pub trait Visitor {
    /// What it is after a visit of a variable.
    ghost after: { Self → ℕ → Self };

    fn visit(&mut self, v: u32) -> Result<(), Memory>
        ensures { OnOk result (self.new ≡ after self.old v) };
}

/// Visits each read of an expression, in the order of its text.
#[cycle(reads)]
#[tactic(auto, unfolding(crate::specs::Exprs::variables))]
pub fn visit_expr<V: Visitor>(visitor: &mut V, e: &Expr) -> Result<(), Memory>
    ensures { OnOk result (visitor.new ≡ visited V.after visitor.old (variables e.now)) }
{
    match e {
        Expr::Const(_) => Ok(()),
        Expr::Var(v) => visitor.visit(*v),
        Expr::Unary(_, a) | Expr::Extend(_, _, a) | Expr::Part(_, _, a) | Expr::Count(_, a) =>
            visit_expr(visitor, a.get()),
        Expr::Arithmetic(_, a, b) => visit_two(visitor, a.get(), b.get()),
        Expr::Division(_, a, b) => visit_two(visitor, a.get(), b.get()),
        Expr::SignedDivision(_, a, b) => visit_two(visitor, a.get(), b.get()),
        Expr::Shift(_, a, b) => visit_two(visitor, a.get(), b.get()),
        Expr::Compare(_, a, b) => visit_two(visitor, a.get(), b.get()),
        Expr::SignedCompare(_, a, b) => visit_two(visitor, a.get(), b.get()),
        Expr::Concat(a, b) => visit_two(visitor, a.get(), b.get()),
        Expr::Overflow(_, a, b) => visit_two(visitor, a.get(), b.get()),
    }
}

#[cycle(reads)]
#[tactic(auto, using(crate::proofs::Visited::visited_append))]
fn visit_two<V: Visitor>(visitor: &mut V, a: &Expr, b: &Expr) -> Result<(), Memory>
    ensures { OnOk result (visitor.new ≡ visited V.after visitor.old (variables a.now ++ variables b.now)) }
{
    visit_expr(visitor, a)?;
    visit_expr(visitor, b)
}

/// The same of several.
#[tactic(auto, using(crate::proofs::Visited::visited_append))]
pub fn visit_exprs<V: Visitor>(visitor: &mut V, es: &[Expr]) -> Result<(), Memory>
    ensures { OnOk result (visitor.new ≡ visited V.after visitor.old (all_variables es.now)) }
{
    for e in es {
        visit_expr(visitor, e)?;
    }
    Ok(())
}

/// Visits each read of a simple statement's arguments. What isn't simple has none.
pub fn visit_stmt<V: Visitor>(visitor: &mut V, s: &Stmt) -> Result<(), Memory>
    ensures { OnOk result (visitor.new ≡ visited V.after visitor.old (all_variables (args_of s.now))) }
{
    match s {
        Stmt::Assign { value, .. } => visit_expr(visitor, value),
        Stmt::Load { address, .. } => visit_expr(visitor, address),
        Stmt::Store { address, value, .. } => visit_two(visitor, address, value),
        Stmt::Call { args, .. } => visit_exprs(visitor, args.as_slice()),
        Stmt::CallInd { callee, args, .. } => {
            visit_expr(visitor, callee)?;
            visit_exprs(visitor, args.as_slice())
        }
        Stmt::Other { args, .. } => visit_exprs(visitor, args.as_slice()),
        Stmt::Divide { left, right, .. } => visit_two(visitor, left, right),
        _ => Ok(()),
    }
}
