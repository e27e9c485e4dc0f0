//! Sums, differences, products, bits and divisions.

ghost use Rattle.std.specs.Prelude.{◌≡◌, MatchOption};
ghost use Rattle.cmeaning.specs.declared.tree.UnaryOp.TheVariants.{Neg as Opposite};
ghost use Rattle.rules.specs.Arithmetic.{Summing};
ghost use Rattle.rules.specs.Letters.{KeepsAtZero, FallsAtZero, Cancels, RepeatsItself, IsBitwise};
ghost use Rattle.rule_views.specs.declared.nodes.Single.TheVariants as S;
ghost use Rattle.rule_views.specs.declared.nodes.Pair.TheVariants as P;
ghost use Rattle.rule_views.specs.declared.row.Row.TheVariants as R;
ghost use Rattle.rule_views.specs.Beside as B;
ghost use Rattle.rule_views.specs.Rows.{SummingOf};
ghost use Rattle.rule_views.specs.Sees.{NoAtom};
ghost use Rattle.rule_views.specs.Fires.{FiredWith, NoneOfPair, FiredOfPair, NoneOfSingle, FiredOfSingle};
ghost use Rattle.rule_sums.specs.Sides as N;

use crate::constants::{falls_at_zero, is_bitwise, keeps_at_zero, leaves, nested, repeats_itself};
use bits_core::Word;
use cmeaning::{ArithmeticOp, UnaryOp};
use rule_views::{
    Arg, Found, Made, Pair, Row, Single, View, beside_constant, cancels, folded, is_sum, unary,
};

/// x + 0, x - 0, x | 0, x ^ 0: x
#[tactic(auto, using(crate::proofs::Summed::nothing_fires))]
fn with_nothing<V: View>(op: ArithmeticOp, a: V, c: Word) -> Option<Made<V>>
    ensures { MatchOption result (KeepsAtZero op → c.value ≡ 0 → ⊥)
        (FiredWith (SummingOf R.A1) V.Sees (P.Arithmetic op) a c) }
{
    if c.value != 0 {
        return None;
    }
    if !keeps_at_zero(op) {
        return None;
    }
    Some(Made::Is(Arg::Place(a)))
}

/// x * 1, x & ones, x / 1: x
#[tactic(auto, using(crate::proofs::Summed::one_fires))]
fn with_one<V: View>(p: Pair, a: V, c: Word) -> Option<Made<V>>
    ensures { MatchOption result (N.Leaves p c → ⊥) (FiredWith (SummingOf R.A2) V.Sees p a c) }
{
    if !leaves(p, c) {
        return None;
    }
    Some(Made::Is(Arg::Place(a)))
}

/// x * 0, x & 0: 0
#[tactic(auto, using(crate::proofs::Summed::zero_fires))]
fn with_zero<V: View>(op: ArithmeticOp, a: V, c: Word) -> Option<Made<V>>
    ensures { MatchOption result (FallsAtZero op → c.value ≡ 0 → ⊥)
        (FiredWith (SummingOf R.A3) V.Sees (P.Arithmetic op) a c) }
{
    if c.value != 0 {
        return None;
    }
    if !falls_at_zero(op) {
        return None;
    }
    Some(Made::Is(Arg::Const(c)))
}

/// x - x, x ^ x: 0
#[tactic(auto, using(crate::proofs::Summed::cancelled_fires))]
fn cancelled<V: View>(op: ArithmeticOp, a: V, b: V) -> Option<Made<V>>
    ensures { MatchOption result (Cancels op → NoAtom V.Sees a b)
        (FiredOfPair (SummingOf R.A4) V.Sees (P.Arithmetic op) a b) }
{
    if !cancels(op) {
        return None;
    }
    if !a.same(b) {
        return None;
    }
    let zero = Word::new(0, a.width());
    Some(Made::Is(Arg::Const(zero)))
}

/// x & x, x | x: x
#[tactic(auto, using(crate::proofs::Summed::repeated_fires))]
fn repeated<V: View>(op: ArithmeticOp, a: V, b: V) -> Option<Made<V>>
    ensures { MatchOption result (RepeatsItself op → NoAtom V.Sees a b)
        (FiredOfPair (SummingOf R.A4) V.Sees (P.Arithmetic op) a b) }
{
    if !repeats_itself(op) {
        return None;
    }
    if !a.same(b) {
        return None;
    }
    Some(Made::Is(Arg::Place(a)))
}

/// (x + c) + d: x + (c + d), (x - c) - d: x - (c + d), (x + c) - d: x + (c - d), (x - c) + d: x + (d - c)
#[tactic(auto, using(crate::proofs::Summed::nested_fires))]
fn nested_sum<V: View>(op: ArithmeticOp, a: V, d: Word) -> Option<Made<V>>
    ensures { MatchOption result (B.IsSum op → B.NoneBeside V.Sees a B.IsSum)
        (FiredWith (SummingOf R.A5) V.Sees (P.Arithmetic op) a d) }
{
    if !is_sum(op) {
        return None;
    }
    let (inner, x, c) = beside_constant(a)?;
    if !is_sum(inner) {
        return None;
    }
    let (to, e) = nested(inner, op, c, d);
    Some(Made::Pair(Pair::Arithmetic(to), Arg::Place(x), Arg::Const(e)))
}

/// (x op c) op d: x op (c op d), for And, Or and Xor
#[tactic(auto, using(crate::proofs::Summed::bits_fire))]
fn nested_bits<V: View>(op: ArithmeticOp, a: V, d: Word) -> Option<Made<V>>
    ensures { MatchOption result (IsBitwise op → B.NoneBeside V.Sees a (λ o. o ≡ op))
        (FiredWith (SummingOf R.A6) V.Sees (P.Arithmetic op) a d) }
{
    if !is_bitwise(op) {
        return None;
    }
    let (inner, x, c) = beside_constant(a)?;
    if inner != op {
        return None;
    }
    let e = folded(op, c, d);
    Some(Made::Pair(Pair::Arithmetic(op), Arg::Place(x), Arg::Const(e)))
}

/// -(-x), ~(~x): x
#[tactic(auto, using(crate::proofs::Summed::undone_fires))]
fn undone<V: View>(op: UnaryOp, a: V) -> Option<Made<V>>
    ensures { MatchOption result (N.NoUnaryOf V.Sees op a) (FiredOfSingle (SummingOf R.A7) V.Sees (S.Unary op) a) }
{
    let (inner, x) = unary(a)?;
    if inner != op {
        return None;
    }
    Some(Made::Is(Arg::Place(x)))
}

/// x + (-y): x - y, x - (-y): x + y
#[tactic(auto, using(crate::proofs::Summed::opposite_fires))]
fn with_opposite<V: View>(op: ArithmeticOp, a: V, b: V) -> Option<Made<V>>
    ensures { MatchOption result (B.IsSum op → N.NoUnaryOf V.Sees Opposite b)
        (FiredOfPair (SummingOf R.A8) V.Sees (P.Arithmetic op) a b) }
{
    if !is_sum(op) {
        return None;
    }
    let (inner, y) = unary(b)?;
    if inner != UnaryOp::Neg {
        return None;
    }
    let to = other_sum(op);
    Some(Made::Pair(Pair::Arithmetic(to), Arg::Place(a), Arg::Place(y)))
}

// Sub for Add, and Add for Sub.
fn other_sum(op: ArithmeticOp) -> ArithmeticOp
    ensures { N.AreOpposite op result }
{
    match op {
        ArithmeticOp::Add => ArithmeticOp::Sub,
        ArithmeticOp::Sub => ArithmeticOp::Add,
        ArithmeticOp::Mul | ArithmeticOp::And | ArithmeticOp::Or | ArithmeticOp::Xor => op,
    }
}

fn by_op<V: View>(op: ArithmeticOp, a: V, c: Word) -> Option<Found<V>>
    ensures { MatchOption result (N.NoneByOp V.Sees op a c)
        (λ f. FiredWith (SummingOf f.row) V.Sees (P.Arithmetic op) a c f.made) }
{
    if let Some(made) = with_nothing(op, a, c) {
        let row = Row::A1;
        return Some(Found { row, made });
    }
    if let Some(made) = with_zero(op, a, c) {
        let row = Row::A3;
        return Some(Found { row, made });
    }
    if let Some(made) = nested_sum(op, a, c) {
        let row = Row::A5;
        return Some(Found { row, made });
    }
    let made = nested_bits(op, a, c)?;
    let row = Row::A6;
    Some(Found { row, made })
}

fn by<V: View>(p: Pair, a: V, c: Word) -> Option<Found<V>>
    ensures { MatchOption result (N.NoneBy V.Sees p a c)
        (λ f. FiredWith (SummingOf f.row) V.Sees p a c f.made) }
{
    if let Some(made) = with_one(p, a, c) {
        let row = Row::A2;
        return Some(Found { row, made });
    }
    match p {
        Pair::Arithmetic(op) => by_op(op, a, c),
        _ => None,
    }
}

#[tactic(auto, using(crate::proofs::Summed::constant_fires, crate::proofs::Summed::none_at_constant, crate::proofs::Summed::none_at_other))]
fn by_constant<V: View>(p: Pair, a: V, b: V) -> Option<Found<V>>
    ensures { MatchOption result (N.NoneByConstant V.Sees p a b)
        (λ f. FiredOfPair (SummingOf f.row) V.Sees p a b f.made) }
{
    let c = b.constant()?;
    let found = by(p, a, c)?;
    Some(found)
}

fn of_two<V: View>(op: ArithmeticOp, a: V, b: V) -> Option<Found<V>>
    ensures { MatchOption result (N.NoneOfTwo V.Sees op a b)
        (λ f. FiredOfPair (SummingOf f.row) V.Sees (P.Arithmetic op) a b f.made) }
{
    if let Some(made) = cancelled(op, a, b) {
        let row = Row::A4;
        return Some(Found { row, made });
    }
    if let Some(made) = repeated(op, a, b) {
        let row = Row::A4;
        return Some(Found { row, made });
    }
    let made = with_opposite(op, a, b)?;
    let row = Row::A8;
    Some(Found { row, made })
}

/// The rules of sums, of a node with two operands.
#[tactic(auto, using(crate::proofs::Summed::none_of_pair))]
pub fn sum_rule<V: View>(p: Pair, a: V, b: V) -> Option<Found<V>>
    ensures { MatchOption result (NoneOfPair Summing V.Sees p a b)
        (λ f. FiredOfPair (SummingOf f.row) V.Sees p a b f.made) }
{
    if let Some(found) = by_constant(p, a, b) {
        return Some(found);
    }
    match p {
        Pair::Arithmetic(op) => of_two(op, a, b),
        _ => None,
    }
}

/// The rules of sums, of a node with one operand.
#[tactic(auto, using(crate::proofs::Summed::none_undone, crate::proofs::Summed::none_other))]
pub fn opposite_rule<V: View>(s: Single, a: V) -> Option<Found<V>>
    ensures { MatchOption result (NoneOfSingle Summing V.Sees s a)
        (λ f. FiredOfSingle (SummingOf f.row) V.Sees s a f.made) }
{
    match s {
        Single::Unary(op) => {
            let made = undone(op, a)?;
            let row = Row::A7;
            Some(Found { row, made })
        }
        _ => None,
    }
}
