//! Comparisons, carries and borrows.

ghost use Rattle.std.specs.Prelude.{◌≡◌, ◌↔◌, ℕ, IsTrue, MatchOption};
ghost use Rattle.bits_core.specs.Value.{flag};
ghost use Rattle.cmeaning.specs.declared.tree.ArithmeticOp.TheVariants as A;
ghost use Rattle.cmeaning.specs.declared.tree.CompareOp.TheVariants as C;
ghost use Rattle.rules.specs.Letters.{Folds, IsEquality, of_self, of_signed_self};
ghost use Rattle.rules.specs.Comparisons.{Comparing};
ghost use Rattle.rule_views.specs.declared.nodes.Pair.TheVariants as P;
ghost use Rattle.rule_views.specs.declared.row.Row.TheVariants as R;
ghost use Rattle.rule_views.specs.Rows.{ComparingOf};
ghost use Rattle.rule_views.specs.Sees.{NoAtom, NoZero};
ghost use Rattle.rule_views.specs.Fires.{FiredWith, NoneOfPair, FiredOfPair};
ghost use Rattle.rule_views.specs.Beside.{IsSum, NoneBeside};
ghost use Rattle.rule_conditions.specs.Compared as N;

use crate::letters::{of_two_tests, with_borrow};
use bits_core::Word;
use cmeaning::{ArithmeticOp, CompareOp, OverflowOp, SignedCompareOp};
use rule_views::{
    Arg, Found, Made, Pair, Row, View, arithmetic, beside_constant, cancels, folded, is_sum, zero,
};

fn is_equality(op: CompareOp) -> bool
    ensures { IsTrue result ↔ IsEquality op }
{
    match op {
        CompareOp::Eq | CompareOp::Ne => true,
        CompareOp::Lt | CompareOp::Le => false,
    }
}

/// x - y == 0, x ^ y == 0, and with !=: x == y
#[tactic(auto, using(crate::proofs::Compared::not_arithmetic, crate::proofs::Compared::no_difference))]
fn difference_of_nothing<V: View>(op: CompareOp, a: V, c: Word) -> Option<Made<V>>
    ensures { MatchOption result (IsEquality op → c.value ≡ 0 → N.NoDifference V.Sees a)
        (FiredWith (ComparingOf R.C1) V.Sees (P.Compare op) a c) }
{
    if !is_equality(op) {
        return None;
    }
    if c.value != 0 {
        return None;
    }
    let (inner, x, y) = arithmetic(a)?;
    if !cancels(inner) {
        return None;
    }
    Some(Made::Pair(Pair::Compare(op), Arg::Place(x), Arg::Place(y)))
}

// The constant that x is compared with in place of d, where x inner c is.
fn moved(inner: ArithmeticOp, c: Word, d: Word) -> Word
    ensures { c.width.bytes ≡ d.width.bytes → N.Moves inner c d result }
{
    match inner {
        ArithmeticOp::Add => folded(ArithmeticOp::Sub, d, c),
        ArithmeticOp::Sub
        | ArithmeticOp::Mul
        | ArithmeticOp::And
        | ArithmeticOp::Or
        | ArithmeticOp::Xor => folded(ArithmeticOp::Add, d, c),
    }
}

/// x + c == d, x - c == d, and with !=: x == d - c, x == d + c
fn sum_compared<V: View>(op: CompareOp, a: V, d: Word) -> Option<Made<V>>
    ensures { MatchOption result (IsEquality op → NoneBeside V.Sees a IsSum)
        (FiredWith (ComparingOf R.C2) V.Sees (P.Compare op) a d) }
{
    if !is_equality(op) {
        return None;
    }
    let (inner, x, c) = beside_constant(a)?;
    if !is_sum(inner) {
        return None;
    }
    let e = moved(inner, c, d);
    Some(Made::Pair(Pair::Compare(op), Arg::Place(x), Arg::Const(e)))
}

/// Lt(x, 0): 0
fn below_zero<V: View>(op: CompareOp, a: V, c: Word) -> Option<Made<V>>
    ensures { MatchOption result (op ≡ C.Lt → c.value ≡ 0 → ⊥)
        (FiredWith (ComparingOf R.C7) V.Sees (P.Compare op) a c) }
{
    if op != CompareOp::Lt {
        return None;
    }
    if c.value != 0 {
        return None;
    }
    let never = Word::of_test(false);
    Some(Made::Is(Arg::Const(never)))
}

/// Lt(x, 1): x == 0
fn below_one<V: View>(op: CompareOp, a: V, c: Word) -> Option<Made<V>>
    ensures { MatchOption result (op ≡ C.Lt → c.value ≡ 1 → ⊥)
        (FiredWith (ComparingOf R.C7) V.Sees (P.Compare op) a c) }
{
    if op != CompareOp::Lt {
        return None;
    }
    if c.value != 1 {
        return None;
    }
    let zero = Word::new(0, c.width);
    Some(Made::Pair(
        Pair::Compare(CompareOp::Eq),
        Arg::Place(a),
        Arg::Const(zero),
    ))
}

/// Le(x, 0): x == 0
fn to_zero<V: View>(op: CompareOp, a: V, c: Word) -> Option<Made<V>>
    ensures { MatchOption result (op ≡ C.Le → c.value ≡ 0 → ⊥)
        (FiredWith (ComparingOf R.C7) V.Sees (P.Compare op) a c) }
{
    if op != CompareOp::Le {
        return None;
    }
    if c.value != 0 {
        return None;
    }
    Some(Made::Pair(Pair::Compare(CompareOp::Eq), Arg::Place(a), Arg::Const(c)))
}

/// Le(0, x): 1
fn from_zero<V: View>(op: CompareOp, a: V, b: V) -> Option<Made<V>>
    ensures { MatchOption result (op ≡ C.Le → NoZero V.Sees a)
        (FiredOfPair (ComparingOf R.C7) V.Sees (P.Compare op) a b) }
{
    if op != CompareOp::Le {
        return None;
    }
    let _zero = zero(a)?;
    let always = Word::of_test(true);
    Some(Made::Is(Arg::Const(always)))
}

fn of_itself(op: CompareOp) -> bool
    ensures { flag result ≡ of_self op }
{
    match op {
        CompareOp::Eq | CompareOp::Le => true,
        CompareOp::Ne | CompareOp::Lt => false,
    }
}

fn of_itself_signed(op: SignedCompareOp) -> bool
    ensures { flag result ≡ of_signed_self op }
{
    match op {
        SignedCompareOp::SLt => false,
        SignedCompareOp::SLe => true,
    }
}

/// Eq, Ne, Lt, Le of x with x: 1 for Eq and Le, and else 0
fn with_itself<V: View>(op: CompareOp, a: V, b: V) -> Option<Made<V>>
    ensures { MatchOption result (NoAtom V.Sees a b) (FiredOfPair (ComparingOf R.C8) V.Sees (P.Compare op) a b) }
{
    if !a.same(b) {
        return None;
    }
    let test = Word::of_test(of_itself(op));
    Some(Made::Is(Arg::Const(test)))
}

/// SLt, SLe of x with x: 1 for SLe, and else 0
fn signed_with_itself<V: View>(op: SignedCompareOp, a: V, b: V) -> Option<Made<V>>
    ensures { MatchOption result (NoAtom V.Sees a b)
        (FiredOfPair (ComparingOf R.C8) V.Sees (P.SignedCompare op) a b) }
{
    if !a.same(b) {
        return None;
    }
    let test = Word::of_test(of_itself_signed(op));
    Some(Made::Is(Arg::Const(test)))
}

/// Carry, SCarry, SBorrow of x and 0: 0
fn with_nothing<V: View>(op: OverflowOp, a: V, b: V) -> Option<Made<V>>
    ensures { MatchOption result (NoZero V.Sees b) (FiredOfPair (ComparingOf R.C6) V.Sees (P.Overflow op) a b) }
{
    let _zero = zero(b)?;
    let never = Word::of_test(false);
    Some(Made::Is(Arg::Const(never)))
}

fn compared_by<V: View>(op: CompareOp, a: V, c: Word) -> Option<Found<V>>
    ensures { MatchOption result (N.NoneComparedBy V.Sees op a c)
        (λ f. FiredWith (ComparingOf f.row) V.Sees (P.Compare op) a c f.made) }
{
    if let Some(made) = difference_of_nothing(op, a, c) {
        let row = Row::C1;
        return Some(Found { row, made });
    }
    if let Some(made) = sum_compared(op, a, c) {
        let row = Row::C2;
        return Some(Found { row, made });
    }
    let row = Row::C7;
    if let Some(made) = below_zero(op, a, c) {
        return Some(Found { row, made });
    }
    if let Some(made) = below_one(op, a, c) {
        return Some(Found { row, made });
    }
    let made = to_zero(op, a, c)?;
    Some(Found { row, made })
}

#[tactic(auto, using(crate::proofs::Compared::none_at_constant, crate::proofs::Compared::none_at_other, crate::proofs::Compared::constant_fires))]
fn with_constant<V: View>(op: CompareOp, a: V, b: V) -> Option<Found<V>>
    ensures { MatchOption result (N.NoneComparedWith V.Sees op a b)
        (λ f. FiredOfPair (ComparingOf f.row) V.Sees (P.Compare op) a b f.made) }
{
    let c = b.constant()?;
    let found = compared_by(op, a, c)?;
    Some(found)
}

fn compared<V: View>(op: CompareOp, a: V, b: V) -> Option<Found<V>>
    ensures { MatchOption result (N.NoneCompared V.Sees op a b)
        (λ f. FiredOfPair (ComparingOf f.row) V.Sees (P.Compare op) a b f.made) }
{
    if let Some(found) = with_constant(op, a, b) {
        return Some(found);
    }
    if let Some(made) = with_borrow(op, a, b) {
        let row = Row::C3;
        return Some(Found { row, made });
    }
    if let Some(made) = from_zero(op, a, b) {
        let row = Row::C7;
        return Some(Found { row, made });
    }
    let made = with_itself(op, a, b)?;
    let row = Row::C8;
    Some(Found { row, made })
}

/// The rules of comparisons, carries and borrows.
#[tactic(auto, using(crate::proofs::Compared::none_compared, crate::proofs::Compared::none_signed, crate::proofs::Compared::none_carried, crate::proofs::Compared::none_joined, crate::proofs::Compared::none_other))]
pub fn comparison_rule<V: View>(p: Pair, a: V, b: V) -> Option<Found<V>>
    ensures { MatchOption result (NoneOfPair (λ ws. Comparing) V.Sees p a b)
        (λ f. FiredOfPair (ComparingOf f.row) V.Sees p a b f.made) }
{
    match p {
        Pair::Compare(op) => compared(op, a, b),
        Pair::SignedCompare(op) => {
            let made = signed_with_itself(op, a, b)?;
            let row = Row::C8;
            Some(Found { row, made })
        }
        Pair::Overflow(op) => {
            let made = with_nothing(op, a, b)?;
            let row = Row::C6;
            Some(Found { row, made })
        }
        Pair::Arithmetic(op) => of_two_tests(op, a, b),
        Pair::Division(_) | Pair::SignedDivision(_) | Pair::Shift(_) | Pair::Concat => None,
    }
}
