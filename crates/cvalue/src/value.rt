//! The value of an expression, node by node.

ghost use Rattle.std.specs.Prelude.{◌≡◌, ◌+◌, ◌-◌, ◌<◌, ◌≤◌, ◌↔◌, IsTrue, ℕ, Option, Some, true};
ghost use Rattle.bits_core.specs.declared.word.Word.{Word as AWord};
ghost use Rattle.bits_core.specs.Value.{half as least, limit};
ghost use Rattle.cmeaning.specs.Do.{widths_in};
ghost use Rattle.cmeaning.specs.Shape.{shape_of, is_right};
ghost use Rattle.cmeaning.specs.Value.{Meaning, meaning_of};
ghost use Rattle.cvalue.specs.Held.{Tells, AreAlike, env_of};
ghost use Rattle.cvalue.specs.Nodes as N;

use crate::operations::{
    arithmetic_of, compare_of, count_of, division_of, extend_of, overflow_of, shift_of,
    signed_compare_of, signed_division_of, unary_of,
};
use crate::variables::Variables;
use bits_core::{Binary, Divide, Width, Word, binary, divide, unary};
use cmeaning::{
    ArithmeticOp, CompareOp, CountOp, DivisionOp, Expr, ExtendOp, OverflowOp, ShiftOp,
    SignedCompareOp, SignedDivisionOp, UnaryOp,
};

fn unary_word(op: UnaryOp, a: Option<Word>) -> Option<Word>
    ensures { (m : Meaning) (env : ℕ → Option ℕ) → Tells a m env → Tells result (N.unary op m) env }
{
    let a = a?;
    Some(unary(unary_of(op), a, a.width))
}

fn extended(op: ExtendOp, out: Width, a: Option<Word>) -> Option<Word>
    requires { (x : AWord) → a ≡ Some x → x.width.bytes < out.bytes }
    ensures { (m : Meaning) (env : ℕ → Option ℕ) → Tells a m env → Tells result (N.extend op out m) env }
{
    let a = a?;
    Some(unary(extend_of(op), a, out))
}

fn counted(op: CountOp, a: Option<Word>) -> Option<Word>
    ensures { (m : Meaning) (env : ℕ → Option ℕ) → Tells a m env → Tells result (N.count op m) env }
{
    let a = a?;
    Some(unary(count_of(op), a, Width::BYTE))
}

#[tactic(auto, using(bits_core::proofs::Limits::limit_least))]
fn byte(value: u8) -> Word
    ensures value { result.value ≡ value }
    ensures width { result.width.bytes ≡ 1 }
{
    Word {
        value: u128::from(value),
        width: Width::BYTE,
    }
}

fn part(dropped: u8, out: Width, a: Option<Word>) -> Option<Word>
    ensures { (m : Meaning) (env : ℕ → Option ℕ) → Tells a m env → Tells result (N.part dropped out m) env }
{
    let a = a?;
    Some(binary(Binary::Subpiece, a, byte(dropped), out))
}

fn arithmetic(op: ArithmeticOp, a: Option<Word>, b: Option<Word>) -> Option<Word>
    requires { AreAlike a b }
    ensures { (m n : Meaning) (env : ℕ → Option ℕ)
        → Tells a m env
        → Tells b n env
        → Tells result (N.arithmetic op m n) env }
{
    let a = a?;
    let b = b?;
    Some(binary(arithmetic_of(op), a, b, a.width))
}

fn shifted(op: ShiftOp, a: Option<Word>, b: Option<Word>) -> Option<Word>
    ensures { (m n : Meaning) (env : ℕ → Option ℕ) → Tells a m env → Tells b n env → Tells result (N.shift op m n) env }
{
    let a = a?;
    let b = b?;
    Some(binary(shift_of(op), a, b, a.width))
}

fn compared(op: CompareOp, a: Option<Word>, b: Option<Word>) -> Option<Word>
    requires { AreAlike a b }
    ensures { (m n : Meaning) (env : ℕ → Option ℕ) → Tells a m env → Tells b n env → Tells result (N.compare op m n) env }
{
    let a = a?;
    let b = b?;
    Some(binary(compare_of(op), a, b, Width::BYTE))
}

fn compared_signed(op: SignedCompareOp, a: Option<Word>, b: Option<Word>) -> Option<Word>
    requires { AreAlike a b }
    ensures { (m n : Meaning) (env : ℕ → Option ℕ)
        → Tells a m env
        → Tells b n env
        → Tells result (N.signed_compare op m n) env }
{
    let a = a?;
    let b = b?;
    Some(binary(signed_compare_of(op), a, b, Width::BYTE))
}

fn overflows(op: OverflowOp, a: Option<Word>, b: Option<Word>) -> Option<Word>
    requires { AreAlike a b }
    ensures { (m n : Meaning) (env : ℕ → Option ℕ) → Tells a m env → Tells b n env → Tells result (N.overflow op m n) env }
{
    let a = a?;
    let b = b?;
    Some(binary(overflow_of(op), a, b, Width::BYTE))
}

fn joined(a: Option<Word>, b: Option<Word>) -> Option<Word>
    requires { (x y : AWord) → a ≡ Some x → b ≡ Some y → x.width.bytes + y.width.bytes ≤ 16 }
    ensures { (m n : Meaning) (env : ℕ → Option ℕ) → Tells a m env → Tells b n env → Tells result (N.concat m n) env }
{
    let a = a?;
    let b = b?;
    let width = Width::new(a.width.bytes + b.width.bytes)?;
    Some(binary(Binary::Piece, a, b, width))
}

/// None also where the divisor is 0.
fn divided(op: DivisionOp, a: Option<Word>, b: Option<Word>) -> Option<Word>
    requires { AreAlike a b }
    ensures { (m n : Meaning) (env : ℕ → Option ℕ) → Tells a m env → Tells b n env → Tells result (N.division op m n) env }
{
    let a = a?;
    let b = b?;
    divide(division_of(op), a, b).ok()
}

/// Whether the signed quotient doesn't fit: the least word by -1.
fn overflows_quotient(a: Word, b: Word) -> bool
    ensures { IsTrue result ↔ ((a.value ≡ least a.width.bytes) × (b.value ≡ limit a.width.bytes - 1)) }
{
    let ones = u128::MAX >> (128 - 8 * u32::from(a.width.bytes));
    a.value == ones / 2 + 1 && b.value == ones
}

/// None also where the divisor is 0 or the quotient doesn't fit.
fn divided_signed(op: SignedDivisionOp, a: Option<Word>, b: Option<Word>) -> Option<Word>
    requires { AreAlike a b }
    ensures { (m n : Meaning) (env : ℕ → Option ℕ)
        → Tells a m env
        → Tells b n env
        → Tells result (N.signed_division op m n) env }
{
    let a = a?;
    let b = b?;
    if overflows_quotient(a, b) {
        return None;
    }
    divide(signed_division_of(op), a, b).ok()
}

#[tactic(auto, unfolding(cmeaning::specs::Shape::shape_of, cmeaning::specs::Value::meaning_of))]
pub(crate) fn expr_word(x: &Variables, e: &Expr) -> Option<Word>
    requires { is_right (shape_of (widths_in x.now.f.now) e.now) ≡ true }
    ensures { Tells result (meaning_of (widths_in x.now.f.now) e.now) (env_of x.now.words.items) }
{
    match e {
        Expr::Const(c) => Some(*c),
        Expr::Var(v) => x.word(*v),
        Expr::Unary(op, a) => unary_word(*op, expr_word(x, a.get())),
        Expr::Arithmetic(op, a, b) => {
            arithmetic(*op, expr_word(x, a.get()), expr_word(x, b.get()))
        }
        Expr::Division(op, a, b) => divided(*op, expr_word(x, a.get()), expr_word(x, b.get())),
        Expr::SignedDivision(op, a, b) => {
            divided_signed(*op, expr_word(x, a.get()), expr_word(x, b.get()))
        }
        Expr::Shift(op, a, b) => shifted(*op, expr_word(x, a.get()), expr_word(x, b.get())),
        Expr::Compare(op, a, b) => compared(*op, expr_word(x, a.get()), expr_word(x, b.get())),
        Expr::SignedCompare(op, a, b) => {
            compared_signed(*op, expr_word(x, a.get()), expr_word(x, b.get()))
        }
        Expr::Extend(op, out, a) => extended(*op, *out, expr_word(x, a.get())),
        Expr::Part(dropped, out, a) => part(*dropped, *out, expr_word(x, a.get())),
        Expr::Concat(a, b) => joined(expr_word(x, a.get()), expr_word(x, b.get())),
        Expr::Overflow(op, a, b) => overflows(*op, expr_word(x, a.get()), expr_word(x, b.get())),
        Expr::Count(op, a) => counted(*op, expr_word(x, a.get())),
    }
}
