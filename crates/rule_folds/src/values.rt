//! The values of nodes over constants.

ghost use Rattle.std.specs.Prelude.{◌≡◌, ◌+◌, ◌<◌, ◌≤◌, None, MatchOption, IsSome};
ghost use Rattle.bits_core.specs.Value.{IsUnarySized, IsBinarySized, unary_value, binary_value, divide_value};
ghost use Rattle.rules.specs.Letters.{IsWord};
ghost use Rattle.rule_views.specs.declared.nodes.Single.TheVariants as S;
ghost use Rattle.rule_views.specs.declared.nodes.Pair.TheVariants as P;
ghost use Rattle.rule_folds.specs.Values as N;

use crate::operations::{
    of_comparison, of_count, of_division, of_extension, of_overflow, of_shift,
    of_signed_comparison, of_signed_division, of_unary,
};
use bits_core::{Binary, Divide, Unary, Width, Word, binary, divide, unary};
use cmeaning::{
    ArithmeticOp, CompareOp, CountOp, DivisionOp, ExtendOp, OverflowOp, ShiftOp, SignedCompareOp,
    SignedDivisionOp, UnaryOp,
};
use rule_views::{Pair, Single, folded};

fn of_one(op: Unary, c: Word, w: Width) -> Word
    ensures { IsUnarySized op c.width.bytes w.bytes
        → IsWord w.bytes (unary_value op c.width.bytes c.value w.bytes) result }
{
    if op.is_sized(c.width, w) {
        unary(op, c, w)
    } else {
        c
    }
}

fn of_two(op: Binary, c: Word, d: Word, w: Width) -> Word
    ensures { IsBinarySized op c.width.bytes d.width.bytes w.bytes
        → IsWord w.bytes (binary_value op c.width.bytes c.value d.width.bytes d.value w.bytes) result }
{
    if op.is_sized(c.width, d.width, w) {
        binary(op, c, d, w)
    } else {
        c
    }
}

// The w bytes of c past its k low ones.
fn part(c: Word, k: u8, w: Width) -> Word
    ensures { IsWord w.bytes (binary_value N.Subpiece c.width.bytes c.value 1 k w.bytes) result }
{
    binary(Binary::Subpiece, c, Word::new(k as u128, Width::BYTE), w)
}

#[tactic(auto, using(crate::proofs::Numbers::divided))]
fn quotient(op: Divide, c: Word, d: Word) -> Option<Word>
    ensures { c.width.bytes ≡ d.width.bytes → MatchOption result (d.value ≡ 0) (N.IsQuotient op c d) }
{
    if c.width.bytes != d.width.bytes {
        return None;
    }
    match divide(op, c, d) {
        Ok(q) => Some(q),
        Err(_) => None,
    }
}

// The width of so many bytes, where they are from 1 to 16.
fn together(high: Width, low: Width) -> Width
    ensures { high.bytes + low.bytes ≤ 16 → result.bytes ≡ high.bytes + low.bytes }
{
    match Width::new(high.bytes + low.bytes) {
        Some(w) => w,
        None => high,
    }
}

#[tactic(auto, using(crate::proofs::Numbers::unary_is))]
fn of_sign(op: UnaryOp, c: Word) -> Word
    ensures { N.IsSingleValue (S.Unary op) c result }
{
    of_one(of_unary(op), c, c.width)
}

#[tactic(auto, using(crate::proofs::Numbers::extend_is))]
fn extended(op: ExtendOp, c: Word, w: Width) -> Word
    ensures { c.width.bytes < w.bytes → N.IsSingleValue (S.Extend op w) c result }
{
    of_one(of_extension(op), c, w)
}

#[tactic(auto, using(crate::proofs::Numbers::count_is))]
fn counted(op: CountOp, c: Word) -> Word
    ensures { N.IsSingleValue (S.Count op) c result }
{
    of_one(of_count(op), c, Width::BYTE)
}

pub fn single_value(s: Single, c: Word) -> Word
    ensures { N.SingleAgrees s c.width.bytes → N.IsSingleValue s c result }
{
    match s {
        Single::Unary(op) => of_sign(op, c),
        Single::Extend(op, w) => extended(op, c, w),
        Single::Part(k, w) => part(c, k, w),
        Single::Count(op) => counted(op, c),
    }
}

#[tactic(auto, using(crate::proofs::Numbers::arithmetic_is))]
fn operated(op: ArithmeticOp, c: Word, d: Word) -> Word
    ensures { c.width.bytes ≡ d.width.bytes → N.IsPairValue (P.Arithmetic op) c d result }
{
    folded(op, c, d)
}

#[tactic(auto, using(crate::proofs::Numbers::shift_is))]
fn shifted(op: ShiftOp, c: Word, d: Word) -> Word
    ensures { N.IsPairValue (P.Shift op) c d result }
{
    of_two(of_shift(op), c, d, c.width)
}

#[tactic(auto, using(crate::proofs::Numbers::compare_is))]
fn compared(op: CompareOp, c: Word, d: Word) -> Word
    ensures { c.width.bytes ≡ d.width.bytes → N.IsPairValue (P.Compare op) c d result }
{
    of_two(of_comparison(op), c, d, Width::BYTE)
}

#[tactic(auto, using(crate::proofs::Numbers::signed_compare_is))]
fn signed_compared(op: SignedCompareOp, c: Word, d: Word) -> Word
    ensures { c.width.bytes ≡ d.width.bytes → N.IsPairValue (P.SignedCompare op) c d result }
{
    of_two(of_signed_comparison(op), c, d, Width::BYTE)
}

#[tactic(auto, using(crate::proofs::Numbers::overflow_is))]
fn flagged(op: OverflowOp, c: Word, d: Word) -> Word
    ensures { c.width.bytes ≡ d.width.bytes → N.IsPairValue (P.Overflow op) c d result }
{
    of_two(of_overflow(op), c, d, Width::BYTE)
}

#[tactic(auto, using(crate::proofs::Numbers::concat_is))]
fn joined(c: Word, d: Word) -> Word
    ensures { c.width.bytes + d.width.bytes ≤ 16 → N.IsPairValue P.Concat c d result }
{
    of_two(Binary::Piece, c, d, together(c.width, d.width))
}

#[tactic(auto, using(crate::proofs::Numbers::division_is))]
fn divided(op: DivisionOp, c: Word, d: Word) -> Option<Word>
    ensures { c.width.bytes ≡ d.width.bytes
        → MatchOption result (N.NoPairValue (P.Division op) d) (N.IsPairValue (P.Division op) c d) }
{
    quotient(of_division(op), c, d)
}

#[tactic(auto, using(crate::proofs::Numbers::signed_division_is))]
fn signed_divided(op: SignedDivisionOp, c: Word, d: Word) -> Option<Word>
    ensures { c.width.bytes ≡ d.width.bytes
        → MatchOption result (N.NoPairValue (P.SignedDivision op) d) (N.IsPairValue (P.SignedDivision op) c d) }
{
    quotient(of_signed_division(op), c, d)
}

#[tactic(auto, using(crate::proofs::Numbers::division_divides, crate::proofs::Numbers::signed_division_divides))]
pub fn pair_value(p: Pair, c: Word, d: Word) -> Option<Word>
    ensures value { N.Agree p c.width.bytes d.width.bytes
        → MatchOption result (N.NoPairValue p d) (N.IsPairValue p c d) }
    ensures some { (N.Divides p → ⊥) → IsSome result }
{
    match p {
        Pair::Arithmetic(op) => Some(operated(op, c, d)),
        Pair::Division(op) => divided(op, c, d),
        Pair::SignedDivision(op) => signed_divided(op, c, d),
        Pair::Shift(op) => Some(shifted(op, c, d)),
        Pair::Compare(op) => Some(compared(op, c, d)),
        Pair::SignedCompare(op) => Some(signed_compared(op, c, d)),
        Pair::Concat => Some(joined(c, d)),
        Pair::Overflow(op) => Some(flagged(op, c, d)),
    }
}
