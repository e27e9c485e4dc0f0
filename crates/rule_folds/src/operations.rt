//! The p-code operations that nodes stand for.

ghost use Rattle.std.specs.Prelude.{◌≡◌};
ghost use Rattle.cmeaning.specs.Value.{unary_of, extend_of, count_of, shift_of, compare_of, signed_compare_of, overflow_of, division_of, signed_division_of};

use bits_core::{Binary, Divide, Unary};
use cmeaning::{
    CompareOp, CountOp, DivisionOp, ExtendOp, OverflowOp, ShiftOp, SignedCompareOp,
    SignedDivisionOp, UnaryOp,
};

pub fn of_unary(op: UnaryOp) -> Unary
    ensures { result ≡ unary_of op }
{
    match op {
        UnaryOp::Neg => Unary::Negate,
        UnaryOp::Not => Unary::Complement,
    }
}

pub fn of_extension(op: ExtendOp) -> Unary
    ensures { result ≡ extend_of op }
{
    match op {
        ExtendOp::Zext => Unary::ZeroExtend,
        ExtendOp::Sext => Unary::SignExtend,
    }
}

pub fn of_count(op: CountOp) -> Unary
    ensures { result ≡ count_of op }
{
    match op {
        CountOp::Popcount => Unary::CountOnes,
        CountOp::Lzcount => Unary::CountLeadingZeros,
    }
}

pub fn of_shift(op: ShiftOp) -> Binary
    ensures { result ≡ shift_of op }
{
    match op {
        ShiftOp::Shl => Binary::Left,
        ShiftOp::Shr => Binary::Right,
        ShiftOp::Sar => Binary::SignedRight,
    }
}

pub fn of_comparison(op: CompareOp) -> Binary
    ensures { result ≡ compare_of op }
{
    match op {
        CompareOp::Eq => Binary::Equal,
        CompareOp::Ne => Binary::NotEqual,
        CompareOp::Lt => Binary::Less,
        CompareOp::Le => Binary::LessEqual,
    }
}

pub fn of_signed_comparison(op: SignedCompareOp) -> Binary
    ensures { result ≡ signed_compare_of op }
{
    match op {
        SignedCompareOp::SLt => Binary::SignedLess,
        SignedCompareOp::SLe => Binary::SignedLessEqual,
    }
}

pub fn of_overflow(op: OverflowOp) -> Binary
    ensures { result ≡ overflow_of op }
{
    match op {
        OverflowOp::Carry => Binary::Carry,
        OverflowOp::SCarry => Binary::SignedCarry,
        OverflowOp::SBorrow => Binary::SignedBorrow,
    }
}

pub fn of_division(op: DivisionOp) -> Divide
    ensures { result ≡ division_of op }
{
    match op {
        DivisionOp::Div => Divide::Quotient,
        DivisionOp::Rem => Divide::Remainder,
    }
}

pub fn of_signed_division(op: SignedDivisionOp) -> Divide
    ensures { result ≡ signed_division_of op }
{
    match op {
        SignedDivisionOp::SDiv => Divide::SignedQuotient,
        SignedDivisionOp::SRem => Divide::SignedRemainder,
    }
}
