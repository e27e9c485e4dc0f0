//! The nodes of expressions, by the number of their operands.

use bits_core::Width;
use cmeaning::{
    ArithmeticOp, CompareOp, CountOp, DivisionOp, ExtendOp, OverflowOp, ShiftOp, SignedCompareOp,
    SignedDivisionOp, UnaryOp,
};

/// A node with one operand.
#[derive(Clone, Copy)]
pub enum Single {
    Unary(UnaryOp),
    Extend(ExtendOp, Width),
    /// So many low bytes are dropped, and the width is kept of what is left.
    Part(u8, Width),
    Count(CountOp),
}

/// A node with two operands.
#[derive(Clone, Copy)]
pub enum Pair {
    Arithmetic(ArithmeticOp),
    Division(DivisionOp),
    SignedDivision(SignedDivisionOp),
    Shift(ShiftOp),
    Compare(CompareOp),
    SignedCompare(SignedCompareOp),
    Concat,
    Overflow(OverflowOp),
}
