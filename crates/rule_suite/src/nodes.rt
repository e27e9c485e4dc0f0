// Nodes by their names.
use bits_core::Width;
use cmeaning::{
    ArithmeticOp, CompareOp, CountOp, DivisionOp, Expr, ExtendOp, OverflowOp, ShiftOp,
    SignedCompareOp, SignedDivisionOp, UnaryOp,
};
use rule_views::{Pair, Single};
use sqlite_items::Boxed;
use std::alloc::{AllocError, Global};

/// A node with one operand, which may drop bytes or have a width of its own.
pub fn single(head: &str, dropped: u8, width: Width) -> Option<Single> {
    match head {
        "Neg" => Some(Single::Unary(UnaryOp::Neg)),
        "Not" => Some(Single::Unary(UnaryOp::Not)),
        "Zext" => Some(Single::Extend(ExtendOp::Zext, width)),
        "Sext" => Some(Single::Extend(ExtendOp::Sext, width)),
        "Part" => Some(Single::Part(dropped, width)),
        "Popcount" => Some(Single::Count(CountOp::Popcount)),
        "Lzcount" => Some(Single::Count(CountOp::Lzcount)),
        _ => None,
    }
}

/// A node with two operands.
pub fn pair(head: &str) -> Option<Pair> {
    match head {
        "Add" => Some(Pair::Arithmetic(ArithmeticOp::Add)),
        "Sub" => Some(Pair::Arithmetic(ArithmeticOp::Sub)),
        "Mul" => Some(Pair::Arithmetic(ArithmeticOp::Mul)),
        "And" => Some(Pair::Arithmetic(ArithmeticOp::And)),
        "Or" => Some(Pair::Arithmetic(ArithmeticOp::Or)),
        "Xor" => Some(Pair::Arithmetic(ArithmeticOp::Xor)),
        "Div" => Some(Pair::Division(DivisionOp::Div)),
        "Rem" => Some(Pair::Division(DivisionOp::Rem)),
        "SDiv" => Some(Pair::SignedDivision(SignedDivisionOp::SDiv)),
        "SRem" => Some(Pair::SignedDivision(SignedDivisionOp::SRem)),
        "Shl" => Some(Pair::Shift(ShiftOp::Shl)),
        "Shr" => Some(Pair::Shift(ShiftOp::Shr)),
        "Sar" => Some(Pair::Shift(ShiftOp::Sar)),
        "Eq" => Some(Pair::Compare(CompareOp::Eq)),
        "Ne" => Some(Pair::Compare(CompareOp::Ne)),
        "Lt" => Some(Pair::Compare(CompareOp::Lt)),
        "Le" => Some(Pair::Compare(CompareOp::Le)),
        "SLt" => Some(Pair::SignedCompare(SignedCompareOp::SLt)),
        "SLe" => Some(Pair::SignedCompare(SignedCompareOp::SLe)),
        "Concat" => Some(Pair::Concat),
        "Carry" => Some(Pair::Overflow(OverflowOp::Carry)),
        "SCarry" => Some(Pair::Overflow(OverflowOp::SCarry)),
        "SBorrow" => Some(Pair::Overflow(OverflowOp::SBorrow)),
        _ => None,
    }
}

/// The expression of a node over this operand.
pub fn over_one(alloc: Global, node: Single, a: Expr) -> Result<Expr, AllocError> {
    let a = Boxed::new(alloc, a)?;
    Ok(match node {
        Single::Unary(op) => Expr::Unary(op, a),
        Single::Extend(op, width) => Expr::Extend(op, width, a),
        Single::Part(dropped, width) => Expr::Part(dropped, width, a),
        Single::Count(op) => Expr::Count(op, a),
    })
}

/// The expression of a node over these operands.
pub fn over_two(alloc: Global, node: Pair, a: Expr, b: Expr) -> Result<Expr, AllocError> {
    let a = Boxed::new(alloc, a)?;
    let b = Boxed::new(alloc, b)?;
    Ok(match node {
        Pair::Arithmetic(op) => Expr::Arithmetic(op, a, b),
        Pair::Division(op) => Expr::Division(op, a, b),
        Pair::SignedDivision(op) => Expr::SignedDivision(op, a, b),
        Pair::Shift(op) => Expr::Shift(op, a, b),
        Pair::Compare(op) => Expr::Compare(op, a, b),
        Pair::SignedCompare(op) => Expr::SignedCompare(op, a, b),
        Pair::Concat => Expr::Concat(a, b),
        Pair::Overflow(op) => Expr::Overflow(op, a, b),
    })
}
