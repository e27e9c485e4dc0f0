//! The operands of a node in either order.

ghost use Rattle.std.specs.Prelude.{◌≡◌, ◌↔◌, IsTrue, MatchOption};
ghost use Rattle.rule_views.specs.declared.row.Row.TheVariants as R;
ghost use Rattle.rule_views.specs.Rows.{RuleOf};
ghost use Rattle.rule_views.specs.Fires.{FiredOfPair};
ghost use Rattle.rule_find.specs.Found as N;

use cmeaning::{ArithmeticOp, CompareOp, OverflowOp};
use rule_views::{Arg, Made, Pair, View};

/// Whether an operation gives the same with its operands changed over.
pub fn commutes(p: Pair) -> bool
    ensures { IsTrue result ↔ N.Commutes p }
{
    match p {
        Pair::Arithmetic(op) => match op {
            ArithmeticOp::Sub => false,
            ArithmeticOp::Add
            | ArithmeticOp::Mul
            | ArithmeticOp::And
            | ArithmeticOp::Or
            | ArithmeticOp::Xor => true,
        },
        Pair::Compare(op) => match op {
            CompareOp::Eq | CompareOp::Ne => true,
            CompareOp::Lt | CompareOp::Le => false,
        },
        Pair::Overflow(op) => match op {
            OverflowOp::Carry | OverflowOp::SCarry => true,
            OverflowOp::SBorrow => false,
        },
        Pair::Division(_)
        | Pair::SignedDivision(_)
        | Pair::Shift(_)
        | Pair::SignedCompare(_)
        | Pair::Concat => false,
    }
}

fn changes_over(p: Pair) -> bool
    ensures { IsTrue result ↔ N.ChangesOver p }
{
    match p {
        Pair::Arithmetic(op) => match op {
            ArithmeticOp::Sub => false,
            ArithmeticOp::Add
            | ArithmeticOp::Mul
            | ArithmeticOp::And
            | ArithmeticOp::Or
            | ArithmeticOp::Xor => true,
        },
        Pair::Compare(op) => match op {
            CompareOp::Eq | CompareOp::Ne => true,
            CompareOp::Lt | CompareOp::Le => false,
        },
        Pair::Division(_)
        | Pair::SignedDivision(_)
        | Pair::Shift(_)
        | Pair::SignedCompare(_)
        | Pair::Concat
        | Pair::Overflow(_) => false,
    }
}

/// Add, Mul, And, Or, Xor, Eq, Ne with a constant left alone: operands changed over
#[tactic(auto, using(crate::proofs::Turning::no_left, crate::proofs::Turning::both))]
pub fn changed_over<V: View>(p: Pair, a: V, b: V) -> Option<Made<V>>
    ensures { MatchOption result (N.ChangesOver p → N.NoneOver V.Sees a b)
        (FiredOfPair (RuleOf R.F2) V.Sees p a b) }
{
    if !changes_over(p) {
        return None;
    }
    let c = a.constant()?;
    match b.constant() {
        Some(_) => None,
        None => Some(Made::Pair(p, Arg::Place(b), Arg::Const(c))),
    }
}
