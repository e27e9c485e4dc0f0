ghost use Rattle.std.specs.Prelude.{◌≡◌, ◌≢◌, ◌<◌, ℕ, ◌↔◌, IsErr, IfOk};
ghost use Rattle.bits_core.specs.Value.{IsUnarySized, unary_value, IsBinarySized, binary_value, divide_value, quotient_or_rest};

use crate::ops::{Binary, Divide, Unary};
use crate::word::{Width, Word};

/// A division by zero.
#[derive(Clone, Copy, Debug, PartialEq, Eq)]
pub struct DivZero;

/// The value of an operation with one input, at the output's width `out`. The widths obey the
/// operation's size rule, which `Unary::is_sized` tests.
pub fn unary(op: Unary, a: Word, out: Width) -> Word
    requires { IsUnarySized op a.width.bytes out.bytes }
    ensures value { result.value ≡ unary_value op a.width.bytes a.value out.bytes }
    ensures width { result.width.bytes ≡ out.bytes }
{
    match op {
        Unary::Copy => a,
        Unary::Negate => a.negate(),
        Unary::Complement => a.complement(),
        Unary::ZeroExtend => a.zero_extend(out),
        Unary::SignExtend => a.sign_extend(out),
        Unary::CountOnes => a.ones(out),
        Unary::CountLeadingZeros => a.leading_zeros(out),
        Unary::BoolNegate => a.flip_lowest(),
    }
}

/// The value of an operation with two inputs, at the output's width `out`. The widths obey the
/// operation's size rule, which `Binary::is_sized` tests. Shift amounts count bits and may be any
/// number; the second input of a SUBPIECE counts bytes, also any number.
#[tactic(auto, unfolding(crate::specs::Value::eq, crate::specs::Value::ne, crate::specs::Value::lt, crate::specs::Value::le))]
pub fn binary(op: Binary, a: Word, b: Word, out: Width) -> Word
    requires { IsBinarySized op a.width.bytes b.width.bytes out.bytes }
    ensures value { result.value
        ≡ binary_value op a.width.bytes a.value b.width.bytes b.value out.bytes }
    ensures width { result.width.bytes ≡ out.bytes }
{
    match op {
        Binary::Piece => a.join(b, out),
        Binary::Subpiece => a.part(b.value, out),
        Binary::Add => a.add(b),
        Binary::Subtract => a.subtract(b),
        Binary::Multiply => a.multiply(b),
        Binary::And => a.and(b),
        Binary::Or => a.or(b),
        Binary::Xor => a.xor(b),
        Binary::Equal => Word::of_test(a.value == b.value),
        Binary::NotEqual => Word::of_test(a.value != b.value),
        Binary::Less => Word::of_test(a.value < b.value),
        Binary::LessEqual => Word::of_test(a.value <= b.value),
        Binary::SignedLess => Word::of_test(a.is_signed_less(b)),
        Binary::SignedLessEqual => Word::of_test(a.is_signed_at_most(b)),
        Binary::Carry => Word::of_test(a.carries(b)),
        Binary::SignedCarry => Word::of_test(a.signed_carries(b)),
        Binary::SignedBorrow => Word::of_test(a.signed_borrows(b)),
        Binary::Left => a.left(b.value),
        Binary::Right => a.right(b.value),
        Binary::SignedRight => a.signed_right(b.value),
        Binary::BoolAnd => a.and(b),
        Binary::BoolOr => a.or(b),
        Binary::BoolXor => a.xor(b),
    }
}

/// The value of a division or a remainder of two words of one width.
/// DivZero exactly where the divisor `b` is 0.
pub fn divide(op: Divide, a: Word, b: Word) -> Result<Word, DivZero>
    requires { a.width.bytes ≡ b.width.bytes }
    ensures zero { IsErr result ↔ (b.value ≡ 0) }
    ensures value { IfOk result (λ q.
        divide_value op a.width.bytes a.value b.value ≡ Some q.value) }
    ensures width { IfOk result (λ q. q.width.bytes ≡ a.width.bytes) }
{
    if b.value == 0 {
        return Err(DivZero);
    }
    Ok(divide_by_some(op, a, b))
}

// The quotient or remainder by a divisor that isn't 0.
fn divide_by_some(op: Divide, a: Word, b: Word) -> Word
    requires some { b.value ≢ 0 }
    requires same { a.width.bytes ≡ b.width.bytes }
    ensures value { result.value ≡ quotient_or_rest op a.width.bytes a.value b.value }
    ensures width { result.width ≡ a.width }
{
    match op {
        Divide::Quotient => a.quotient(b),
        Divide::SignedQuotient => a.signed_quotient(b),
        Divide::Remainder => a.remainder(b),
        Divide::SignedRemainder => a.signed_remainder(b),
    }
}

#[cfg(test)]
mod tests;
