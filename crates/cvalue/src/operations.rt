//! The operation that each kind of expression stands for.

ghost use Rattle.std.specs.Prelude.{◌≡◌};
ghost use Rattle.cmeaning.specs.Value as V;

use bits_core::{Binary, Divide, Unary};
use cmeaning::{
    ArithmeticOp, CompareOp, CountOp, DivisionOp, ExtendOp, OverflowOp, ShiftOp, SignedCompareOp,
    SignedDivisionOp, UnaryOp,
};

pub(crate) fn unary_of(op: UnaryOp) -> Unary
    ensures { result ≡ V.unary_of op }
{
    match op {
        UnaryOp::Neg => Unary::Negate,
        UnaryOp::Not => Unary::Complement,
    }
}

pub(crate) fn arithmetic_of(op: ArithmeticOp) -> Binary
    ensures { result ≡ V.arithmetic_of op }
{
    match op {
        ArithmeticOp::Add => Binary::Add,
        ArithmeticOp::Sub => Binary::Subtract,
        ArithmeticOp::Mul => Binary::Multiply,
        ArithmeticOp::And => Binary::And,
        ArithmeticOp::Or => Binary::Or,
        ArithmeticOp::Xor => Binary::Xor,
    }
}

pub(crate) fn division_of(op: DivisionOp) -> Divide
    ensures { result ≡ V.division_of op }
{
    match op {
        DivisionOp::Div => Divide::Quotient,
        DivisionOp::Rem => Divide::Remainder,
    }
}

pub(crate) fn signed_division_of(op: SignedDivisionOp) -> Divide
    ensures { result ≡ V.signed_division_of op }
{
    match op {
        SignedDivisionOp::SDiv => Divide::SignedQuotient,
        SignedDivisionOp::SRem => Divide::SignedRemainder,
    }
}

pub(crate) fn shift_of(op: ShiftOp) -> Binary
    ensures { result ≡ V.shift_of op }
{
    match op {
        ShiftOp::Shl => Binary::Left,
        ShiftOp::Shr => Binary::Right,
        ShiftOp::Sar => Binary::SignedRight,
    }
}

pub(crate) fn compare_of(op: CompareOp) -> Binary
    ensures { result ≡ V.compare_of op }
{
    match op {
        CompareOp::Eq => Binary::Equal,
        CompareOp::Ne => Binary::NotEqual,
        CompareOp::Lt => Binary::Less,
        CompareOp::Le => Binary::LessEqual,
    }
}

pub(crate) fn signed_compare_of(op: SignedCompareOp) -> Binary
    ensures { result ≡ V.signed_compare_of op }
{
    match op {
        SignedCompareOp::SLt => Binary::SignedLess,
        SignedCompareOp::SLe => Binary::SignedLessEqual,
    }
}

pub(crate) fn extend_of(op: ExtendOp) -> Unary
    ensures { result ≡ V.extend_of op }
{
    match op {
        ExtendOp::Zext => Unary::ZeroExtend,
        ExtendOp::Sext => Unary::SignExtend,
    }
}

pub(crate) fn overflow_of(op: OverflowOp) -> Binary
    ensures { result ≡ V.overflow_of op }
{
    match op {
        OverflowOp::Carry => Binary::Carry,
        OverflowOp::SCarry => Binary::SignedCarry,
        OverflowOp::SBorrow => Binary::SignedBorrow,
    }
}

pub(crate) fn count_of(op: CountOp) -> Unary
    ensures { result ≡ V.count_of op }
{
    match op {
        CountOp::Popcount => Unary::CountOnes,
        CountOp::Lzcount => Unary::CountLeadingZeros,
    }
}
