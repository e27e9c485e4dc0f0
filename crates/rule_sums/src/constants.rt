//! Which operations have a rule in common, and the constants that rules ask for.

ghost use Rattle.std.specs.Prelude.{◌≡◌, ◌-◌, ◌↔◌, IsTrue};
ghost use Rattle.bits_core.specs.Value.{limit};
ghost use Rattle.rules.specs.Letters.{KeepsAtZero, FallsAtZero, RepeatsItself, IsBitwise};
ghost use Rattle.rule_sums.specs.Sides as N;

use bits_core::{Unary, Width, Word, unary};
use cmeaning::{ArithmeticOp, DivisionOp, SignedDivisionOp};
use rule_views::{Pair, folded};

// The word whose bits are all 1.
fn ones(width: Width) -> Word
    ensures { result.value ≡ limit width.bytes - 1 }
{
    unary(Unary::Complement, Word::new(0, width), width)
}

pub fn keeps_at_zero(op: ArithmeticOp) -> bool
    ensures { IsTrue result ↔ KeepsAtZero op }
{
    match op {
        ArithmeticOp::Mul | ArithmeticOp::And => false,
        ArithmeticOp::Add | ArithmeticOp::Sub | ArithmeticOp::Or | ArithmeticOp::Xor => true,
    }
}

pub fn falls_at_zero(op: ArithmeticOp) -> bool
    ensures { IsTrue result ↔ FallsAtZero op }
{
    match op {
        ArithmeticOp::Mul | ArithmeticOp::And => true,
        ArithmeticOp::Add | ArithmeticOp::Sub | ArithmeticOp::Or | ArithmeticOp::Xor => false,
    }
}

pub fn repeats_itself(op: ArithmeticOp) -> bool
    ensures { IsTrue result ↔ RepeatsItself op }
{
    match op {
        ArithmeticOp::And | ArithmeticOp::Or => true,
        ArithmeticOp::Add | ArithmeticOp::Sub | ArithmeticOp::Mul | ArithmeticOp::Xor => false,
    }
}

pub fn is_bitwise(op: ArithmeticOp) -> bool
    ensures { IsTrue result ↔ IsBitwise op }
{
    match op {
        ArithmeticOp::And | ArithmeticOp::Or | ArithmeticOp::Xor => true,
        ArithmeticOp::Add | ArithmeticOp::Sub | ArithmeticOp::Mul => false,
    }
}

/// Whether an operation by this constant leaves its left operand as it is.
pub fn leaves(p: Pair, c: Word) -> bool
    ensures { IsTrue result ↔ N.Leaves p c }
{
    match p {
        Pair::Arithmetic(op) => match op {
            ArithmeticOp::Mul => c.value == 1,
            ArithmeticOp::And => c.value == ones(c.width).value,
            ArithmeticOp::Add | ArithmeticOp::Sub | ArithmeticOp::Or | ArithmeticOp::Xor => false,
        },
        Pair::Division(op) => match op {
            DivisionOp::Div => c.value == 1,
            DivisionOp::Rem => false,
        },
        Pair::SignedDivision(op) => match op {
            SignedDivisionOp::SDiv => c.value == 1,
            SignedDivisionOp::SRem => false,
        },
        Pair::Shift(_)
        | Pair::Compare(_)
        | Pair::SignedCompare(_)
        | Pair::Concat
        | Pair::Overflow(_) => false,
    }
}

/// The operation and the constant that (x inner c) op d comes to.
pub fn nested(inner: ArithmeticOp, op: ArithmeticOp, c: Word, d: Word) -> (ArithmeticOp, Word)
    ensures { c.width.bytes ≡ d.width.bytes → N.Nests inner op c d result.0 result.1 }
{
    match inner {
        ArithmeticOp::Add => match op {
            ArithmeticOp::Add => (ArithmeticOp::Add, folded(ArithmeticOp::Add, c, d)),
            ArithmeticOp::Sub => (ArithmeticOp::Add, folded(ArithmeticOp::Sub, c, d)),
            ArithmeticOp::Mul | ArithmeticOp::And | ArithmeticOp::Or | ArithmeticOp::Xor => (op, d),
        },
        ArithmeticOp::Sub => match op {
            ArithmeticOp::Add => (ArithmeticOp::Add, folded(ArithmeticOp::Sub, d, c)),
            ArithmeticOp::Sub => (ArithmeticOp::Sub, folded(ArithmeticOp::Add, c, d)),
            ArithmeticOp::Mul | ArithmeticOp::And | ArithmeticOp::Or | ArithmeticOp::Xor => (op, d),
        },
        ArithmeticOp::Mul | ArithmeticOp::And | ArithmeticOp::Or | ArithmeticOp::Xor => (op, d),
    }
}
