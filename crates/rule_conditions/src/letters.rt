//! Rules that name two letters twice each.

ghost use Rattle.std.specs.Prelude.{◌≡◌, ◌⊎◌, ℕ, IsTrue, MatchOption};
ghost use Rattle.bits_core.specs.declared.word.Word.{Word};
ghost use Rattle.cmeaning.specs.declared.tree.Expr.{Expr};
ghost use Rattle.cmeaning.specs.declared.tree.ArithmeticOp.TheVariants as A;
ghost use Rattle.rules.specs.Letters.{IsAtom, IsEquality};
ghost use Rattle.rule_views.specs.declared.nodes.Pair.{Pair};
ghost use Rattle.rule_views.specs.declared.nodes.Pair.TheVariants as P;
ghost use Rattle.rule_views.specs.declared.row.Row.TheVariants as R;
ghost use Rattle.rule_views.specs.Rows.{ComparingOf};
ghost use Rattle.rule_views.specs.Fires.{FiredOfPair};
ghost use Rattle.rule_conditions.specs.Twice as N;

use cmeaning::{ArithmeticOp, CompareOp, OverflowOp, SignedCompareOp};
use rule_views::{Arg, Found, Made, Pair, Row, View, operands_of, zero};

// SLt(x - y, 0)
#[tactic(auto, using(crate::proofs::Borrows::no_less))]
fn sign_of_difference<V: View>(at: V) -> Option<(V, V)>
    ensures { MatchOption result (N.NoSign V.Sees at) (λ t. (c : Word) × N.IsSign V.Sees at t.0 t.1 c) }
{
    let (d, z) = operands_of(at, Pair::SignedCompare(SignedCompareOp::SLt))?;
    let _zero = zero(z)?;
    let (x, y) = operands_of(d, Pair::Arithmetic(ArithmeticOp::Sub))?;
    Some((x, y))
}

// Whether one letter is at x and u, and one at y and v.
fn same_two<V: View>(x: V, y: V, u: V, v: V) -> bool
    ensures yes { IsTrue result → N.AreTwo V.Sees x y u v }
    ensures no { N.NoneTwo V.Sees x y u v (IsTrue result) }
{
    if !x.same(u) {
        return false;
    }
    y.same(v)
}

/// SLt(x - y, 0) != SBorrow(x, y): SLt(x, y), SLt(x - y, 0) == SBorrow(x, y): SLe(y, x)
#[tactic(auto, using(crate::proofs::Borrows::no_sign, crate::proofs::Borrows::no_borrow))]
pub fn with_borrow<V: View>(op: CompareOp, a: V, b: V) -> Option<Made<V>>
    ensures { MatchOption result (IsEquality op → N.NoBorrow V.Sees a b)
        (FiredOfPair (ComparingOf R.C3) V.Sees (P.Compare op) a b) }
{
    let (x, y) = sign_of_difference(a)?;
    let (u, v) = operands_of(b, Pair::Overflow(OverflowOp::SBorrow))?;
    if !same_two(x, y, u, v) {
        return None;
    }
    match op {
        CompareOp::Ne => {
            let less = Pair::SignedCompare(SignedCompareOp::SLt);
            Some(Made::Pair(less, Arg::Place(x), Arg::Place(y)))
        }
        CompareOp::Eq => {
            let at_most = Pair::SignedCompare(SignedCompareOp::SLe);
            Some(Made::Pair(at_most, Arg::Place(y), Arg::Place(x)))
        }
        CompareOp::Lt | CompareOp::Le => None,
    }
}

// What an order comes to beside an equality of the same letters.
fn or_equal(order: Pair) -> Option<Pair>
    ensures { MatchOption result ((q : Pair) → N.Joins N.equal order q → ⊥) (λ q. N.Joins N.equal order q) }
{
    match order {
        Pair::Compare(op) => match op {
            CompareOp::Lt => Some(Pair::Compare(CompareOp::Le)),
            CompareOp::Eq | CompareOp::Ne | CompareOp::Le => None,
        },
        Pair::SignedCompare(op) => match op {
            SignedCompareOp::SLt => Some(Pair::SignedCompare(SignedCompareOp::SLe)),
            SignedCompareOp::SLe => None,
        },
        Pair::Arithmetic(_)
        | Pair::Division(_)
        | Pair::SignedDivision(_)
        | Pair::Shift(_)
        | Pair::Concat
        | Pair::Overflow(_) => None,
    }
}

// What an order comes to beside an inequality of the same letters.
fn and_other(order: Pair) -> Option<Pair>
    ensures { MatchOption result ((q : Pair) → N.Joins N.other order q → ⊥) (λ q. N.Joins N.other order q) }
{
    match order {
        Pair::Compare(op) => match op {
            CompareOp::Le => Some(Pair::Compare(CompareOp::Lt)),
            CompareOp::Eq | CompareOp::Ne | CompareOp::Lt => None,
        },
        Pair::SignedCompare(op) => match op {
            SignedCompareOp::SLe => Some(Pair::SignedCompare(SignedCompareOp::SLt)),
            SignedCompareOp::SLt => None,
        },
        Pair::Arithmetic(_)
        | Pair::Division(_)
        | Pair::SignedDivision(_)
        | Pair::Shift(_)
        | Pair::Concat
        | Pair::Overflow(_) => None,
    }
}

fn joins(equality: CompareOp, order: Pair) -> Option<Pair>
    ensures { MatchOption result ((q : Pair) → N.Joins equality order q → ⊥) (λ q. N.Joins equality order q) }
{
    match equality {
        CompareOp::Eq => or_equal(order),
        CompareOp::Ne => and_other(order),
        CompareOp::Lt | CompareOp::Le => None,
    }
}

// Whether the same two letters are at x and y and at u and v, in this order or in the other.
#[tactic(auto, using(crate::proofs::Joined::straight, crate::proofs::Joined::crossed, crate::proofs::Joined::crossed_only))]
fn same_letters<V: View>(x: V, y: V, u: V, v: V) -> bool
    ensures yes { IsTrue result → N.AreSame V.Sees x y u v }
    ensures no { N.NoneSame V.Sees x y u v (IsTrue result) }
{
    if same_two(x, y, u, v) {
        return true;
    }
    same_two(x, y, v, u)
}

// An equality and an order of the same two letters.
#[tactic(auto, using(crate::proofs::Joined::no_equality))]
fn joined<V: View>(equality: CompareOp, a: V, b: V) -> Option<Made<V>>
    ensures { MatchOption result (N.NoneJoined V.Sees equality a b) (N.IsJoined V.Sees equality a b) }
{
    let (x, y) = operands_of(a, Pair::Compare(equality))?;
    let (order, u, v) = b.pair()?;
    let to = joins(equality, order)?;
    if !same_letters(x, y, u, v) {
        return None;
    }
    Some(Made::Pair(to, Arg::Place(u), Arg::Place(v)))
}

/// Eq(x, y) | SLt(x, y): SLe(x, y), Eq(x, y) | Lt(x, y): Le(x, y)
fn equal_or_less<V: View>(op: ArithmeticOp, a: V, b: V) -> Option<Made<V>>
    ensures { MatchOption result (op ≡ A.Or → N.NoneJoined V.Sees N.equal a b)
        (FiredOfPair (ComparingOf R.C4) V.Sees (P.Arithmetic op) a b) }
{
    if op != ArithmeticOp::Or {
        return None;
    }
    let made = joined(CompareOp::Eq, a, b)?;
    Some(made)
}

/// Ne(x, y) & SLe(x, y): SLt(x, y), Ne(x, y) & Le(x, y): Lt(x, y)
fn other_and_at_most<V: View>(op: ArithmeticOp, a: V, b: V) -> Option<Made<V>>
    ensures { MatchOption result (op ≡ A.And → N.NoneJoined V.Sees N.other a b)
        (FiredOfPair (ComparingOf R.C5) V.Sees (P.Arithmetic op) a b) }
{
    if op != ArithmeticOp::And {
        return None;
    }
    let made = joined(CompareOp::Ne, a, b)?;
    Some(made)
}

pub fn of_two_tests<V: View>(op: ArithmeticOp, a: V, b: V) -> Option<Found<V>>
    ensures { MatchOption result (N.NoneOfTwo V.Sees op a b)
        (λ f. FiredOfPair (ComparingOf f.row) V.Sees (P.Arithmetic op) a b f.made) }
{
    if let Some(made) = equal_or_less(op, a, b) {
        let row = Row::C4;
        return Some(Found { row, made });
    }
    let made = other_and_at_most(op, a, b)?;
    let row = Row::C5;
    Some(Found { row, made })
}
