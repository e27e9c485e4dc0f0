//! The expressions of operations.

ghost use Rattle.std.specs.Prelude.{◌≡◌, IfOk};
ghost use Rattle.op_values.specs.Nodes.{widened as widened_of, unary_node as unary_of, binary_node as binary_of};

use crate::nodes::{
    arithmetic, compare, concat, constant, count, extended, overflow, shift, signed_compare, unary,
    width_by,
};
use crate::part::part_node;
use bits_core::{Binary, Memory, Unary};
use cmeaning::{
    ArithmeticOp, CompareOp, CountOp, Expr, ExtendOp, OverflowOp, ShiftOp, SignedCompareOp, UnaryOp,
};
use std::alloc::Global;

fn counted(alloc: Global, op: CountOp, bytes: u32, e: Expr) -> Result<Expr, Memory>
    ensures { IfOk result (λ d. d ≡ widened_of bytes (Expr.Count op e)) }
{
    let counted = count(alloc, op, e)?;
    if bytes == 1 {
        Ok(counted)
    } else {
        extended(alloc, ExtendOp::Zext, bytes, counted)
    }
}

/// The expression of an operation with one input, at an output of so many bytes.
pub fn unary_node(alloc: Global, op: Unary, bytes: u32, e: Expr) -> Result<Expr, Memory>
    ensures { IfOk result (λ d. d ≡ unary_of op bytes e) }
{
    match op {
        Unary::Copy => Ok(e),
        Unary::Negate => unary(alloc, UnaryOp::Neg, e),
        Unary::Complement => unary(alloc, UnaryOp::Not, e),
        Unary::ZeroExtend => extended(alloc, ExtendOp::Zext, bytes, e),
        Unary::SignExtend => extended(alloc, ExtendOp::Sext, bytes, e),
        Unary::CountOnes => counted(alloc, CountOp::Popcount, bytes, e),
        Unary::CountLeadingZeros => counted(alloc, CountOp::Lzcount, bytes, e),
        Unary::BoolNegate => arithmetic(alloc, ArithmeticOp::Xor, e, constant(1, 1)),
    }
}

/// The expression of an operation with two inputs. Of SUBPIECE the first one has `from` bytes, the second one is
/// `dropped`, and the output has `bytes`.
pub fn binary_node(
    alloc: Global,
    op: Binary,
    from: u32,
    dropped: u64,
    bytes: u32,
    d: Expr,
    e: Expr,
) -> Result<Expr, Memory>
    ensures { IfOk result (λ c. c ≡ binary_of op from dropped bytes d e) }
{
    match op {
        Binary::Piece => concat(alloc, d, e),
        Binary::Subpiece => part_node(alloc, width_by(from), dropped, bytes, d),
        Binary::Add => arithmetic(alloc, ArithmeticOp::Add, d, e),
        Binary::Subtract => arithmetic(alloc, ArithmeticOp::Sub, d, e),
        Binary::Multiply => arithmetic(alloc, ArithmeticOp::Mul, d, e),
        Binary::And | Binary::BoolAnd => arithmetic(alloc, ArithmeticOp::And, d, e),
        Binary::Or | Binary::BoolOr => arithmetic(alloc, ArithmeticOp::Or, d, e),
        Binary::Xor | Binary::BoolXor => arithmetic(alloc, ArithmeticOp::Xor, d, e),
        Binary::Equal => compare(alloc, CompareOp::Eq, d, e),
        Binary::NotEqual => compare(alloc, CompareOp::Ne, d, e),
        Binary::Less => compare(alloc, CompareOp::Lt, d, e),
        Binary::LessEqual => compare(alloc, CompareOp::Le, d, e),
        Binary::SignedLess => signed_compare(alloc, SignedCompareOp::SLt, d, e),
        Binary::SignedLessEqual => signed_compare(alloc, SignedCompareOp::SLe, d, e),
        Binary::Carry => overflow(alloc, OverflowOp::Carry, d, e),
        Binary::SignedCarry => overflow(alloc, OverflowOp::SCarry, d, e),
        Binary::SignedBorrow => overflow(alloc, OverflowOp::SBorrow, d, e),
        Binary::Left => shift(alloc, ShiftOp::Shl, d, e),
        Binary::Right => shift(alloc, ShiftOp::Shr, d, e),
        Binary::SignedRight => shift(alloc, ShiftOp::Sar, d, e),
    }
}
