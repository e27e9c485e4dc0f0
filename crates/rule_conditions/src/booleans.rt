//! What is 0 or 1, compared with 0 or 1.

ghost use Rattle.std.specs.Prelude.{◌≡◌, ◌↔◌, ℕ, IsTrue, MatchOption};
ghost use Rattle.rules.specs.Booleans.{Deciding};
ghost use Rattle.rule_views.specs.declared.row.Row.TheVariants as R;
ghost use Rattle.rule_views.specs.Rows.{DecidingOf};
ghost use Rattle.rule_views.specs.Fires.{FiredWith, NoneOfPair, FiredOfPair};
ghost use Rattle.rule_conditions.specs.Tests as N;

use bits_core::Word;
use cmeaning::{ArithmeticOp, CompareOp, SignedCompareOp};
use rule_views::{Arg, Found, Made, Pair, Row, View};

fn compare_negated<V: View>(op: CompareOp, x: V, y: V) -> Made<V>
    ensures { result ≡ N.compare_negated op x y }
{
    let (x, y) = (Arg::Place(x), Arg::Place(y));
    match op {
        CompareOp::Eq => Made::Pair(Pair::Compare(CompareOp::Ne), x, y),
        CompareOp::Ne => Made::Pair(Pair::Compare(CompareOp::Eq), x, y),
        CompareOp::Lt => Made::Pair(Pair::Compare(CompareOp::Le), y, x),
        CompareOp::Le => Made::Pair(Pair::Compare(CompareOp::Lt), y, x),
    }
}

fn signed_negated<V: View>(op: SignedCompareOp, x: V, y: V) -> Made<V>
    ensures { result ≡ N.signed_negated op x y }
{
    let (x, y) = (Arg::Place(x), Arg::Place(y));
    match op {
        SignedCompareOp::SLt => Made::Pair(Pair::SignedCompare(SignedCompareOp::SLe), y, x),
        SignedCompareOp::SLe => Made::Pair(Pair::SignedCompare(SignedCompareOp::SLt), y, x),
    }
}

// The negation of the comparison that is here.
#[tactic(auto, using(crate::proofs::Decided::compare_negation, crate::proofs::Decided::signed_negation, crate::proofs::Decided::no_comparison))]
fn negation<V: View>(at: V) -> Option<Made<V>>
    ensures { MatchOption result (N.NoComparison V.Sees at) (N.IsNegation V.Sees at) }
{
    let (node, x, y) = at.pair()?;
    match node {
        Pair::Compare(op) => Some(compare_negated(op, x, y)),
        Pair::SignedCompare(op) => Some(signed_negated(op, x, y)),
        _ => None,
    }
}

// A comparison, Carry, SCarry or SBorrow is here.
#[tactic(auto, using(crate::proofs::Decided::no_test))]
fn test<V: View>(at: V) -> Option<Pair>
    ensures { MatchOption result (N.NoTest V.Sees at) (λ p. N.IsTestAt V.Sees at) }
{
    let (node, _x, _y) = at.pair()?;
    match node {
        Pair::Compare(_) => Some(node),
        Pair::SignedCompare(_) => Some(node),
        Pair::Overflow(_) => Some(node),
        _ => None,
    }
}

fn turns(p: Pair, c: Word) -> bool
    ensures { IsTrue result ↔ N.Turns p c }
{
    match p {
        Pair::Arithmetic(op) => match op {
            ArithmeticOp::Xor => c.value == 1,
            ArithmeticOp::Add
            | ArithmeticOp::Sub
            | ArithmeticOp::Mul
            | ArithmeticOp::And
            | ArithmeticOp::Or => false,
        },
        Pair::Compare(op) => match op {
            CompareOp::Eq => c.value == 0,
            CompareOp::Ne => c.value == 1,
            CompareOp::Lt | CompareOp::Le => false,
        },
        Pair::Division(_)
        | Pair::SignedDivision(_)
        | Pair::Shift(_)
        | Pair::SignedCompare(_)
        | Pair::Concat
        | Pair::Overflow(_) => false,
    }
}

fn repeats(p: Pair, c: Word) -> bool
    ensures { IsTrue result ↔ N.Repeats p c }
{
    match p {
        Pair::Compare(op) => match op {
            CompareOp::Ne => c.value == 0,
            CompareOp::Eq => c.value == 1,
            CompareOp::Lt | CompareOp::Le => false,
        },
        Pair::Arithmetic(_)
        | Pair::Division(_)
        | Pair::SignedDivision(_)
        | Pair::Shift(_)
        | Pair::SignedCompare(_)
        | Pair::Concat
        | Pair::Overflow(_) => false,
    }
}

/// comparison ^ 1, comparison == 0, comparison != 1: the comparison negated
#[tactic(auto, using(crate::proofs::Decided::turned_fires))]
fn turned<V: View>(p: Pair, a: V, c: Word) -> Option<Made<V>>
    ensures { MatchOption result (N.Turns p c → N.NoComparison V.Sees a)
        (FiredWith (DecidingOf R.B1) V.Sees p a c) }
{
    if !turns(p, c) {
        return None;
    }
    let made = negation(a)?;
    Some(made)
}

/// b != 0, b == 1, for a comparison, Carry, SCarry and SBorrow: b
#[tactic(auto, using(crate::proofs::Decided::repeated_fires))]
fn repeated<V: View>(p: Pair, a: V, c: Word) -> Option<Made<V>>
    ensures { MatchOption result (N.Repeats p c → N.NoTest V.Sees a)
        (FiredWith (DecidingOf R.B2) V.Sees p a c) }
{
    if !repeats(p, c) {
        return None;
    }
    let _node = test(a)?;
    Some(Made::Is(Arg::Place(a)))
}

fn decided<V: View>(p: Pair, a: V, c: Word) -> Option<Found<V>>
    ensures { MatchOption result (N.NoneDecided V.Sees p a c)
        (λ f. FiredWith (DecidingOf f.row) V.Sees p a c f.made) }
{
    if let Some(made) = turned(p, a, c) {
        let row = Row::B1;
        return Some(Found { row, made });
    }
    let made = repeated(p, a, c)?;
    let row = Row::B2;
    Some(Found { row, made })
}

/// The rules of what is 0 or 1.
#[tactic(auto, using(crate::proofs::Decided::none_decided, crate::proofs::Decided::no_constant, crate::proofs::Decided::decided_fires))]
pub fn boolean_rule<V: View>(p: Pair, a: V, b: V) -> Option<Found<V>>
    ensures { MatchOption result (NoneOfPair (λ ws. Deciding) V.Sees p a b)
        (λ f. FiredOfPair (DecidingOf f.row) V.Sees p a b f.made) }
{
    let c = b.constant()?;
    let found = decided(p, a, c)?;
    Some(found)
}
