//! Nodes over expressions.

ghost use Rattle.std.specs.Prelude.{◌≡◌, IfOk};
ghost use Rattle.op_values.specs.Nodes.{width_by as width_of, constant as constant_of};

use bits_core::{Memory, Width, Word};
use cmeaning::{
    ArithmeticOp, CompareOp, CountOp, DivisionOp, Expr, ExtendOp, OverflowOp, ShiftOp,
    SignedCompareOp, SignedDivisionOp, UnaryOp,
};
use sqlite_items::Boxed;
use std::alloc::Global;

/// The width of so many bytes, or the nearest one.
pub fn width_by(bytes: u32) -> Width
    ensures { result ≡ width_of bytes }
{
    match Width::new(bytes.max(1).min(16) as u8) {
        Some(width) => width,
        None => unreachable!(),
    }
}

/// A constant of so many bytes.
pub fn constant(bytes: u32, value: u64) -> Expr
    ensures { result ≡ constant_of bytes value }
{
    Expr::Const(Word::new(u128::from(value), width_by(bytes)))
}

pub(crate) fn boxed(alloc: Global, e: Expr) -> Result<Boxed<Expr>, Memory>
    ensures { IfOk result (λ b. b ≡ e) }
{
    Ok(Boxed::new(alloc, e)?)
}

pub(crate) fn extended(alloc: Global, op: ExtendOp, bytes: u32, e: Expr) -> Result<Expr, Memory>
    ensures { IfOk result (λ d. d ≡ Expr.Extend op (width_of bytes) e) }
{
    Ok(Expr::Extend(op, width_by(bytes), boxed(alloc, e)?))
}

pub(crate) fn unary(alloc: Global, op: UnaryOp, e: Expr) -> Result<Expr, Memory>
    ensures { IfOk result (λ d. d ≡ Expr.Unary op e) }
{
    Ok(Expr::Unary(op, boxed(alloc, e)?))
}

pub(crate) fn arithmetic(alloc: Global, op: ArithmeticOp, d: Expr, e: Expr) -> Result<Expr, Memory>
    ensures { IfOk result (λ c. c ≡ Expr.Arithmetic op d e) }
{
    Ok(Expr::Arithmetic(op, boxed(alloc, d)?, boxed(alloc, e)?))
}

pub(crate) fn compare(alloc: Global, op: CompareOp, d: Expr, e: Expr) -> Result<Expr, Memory>
    ensures { IfOk result (λ c. c ≡ Expr.Compare op d e) }
{
    Ok(Expr::Compare(op, boxed(alloc, d)?, boxed(alloc, e)?))
}

pub(crate) fn signed_compare(
    alloc: Global,
    op: SignedCompareOp,
    d: Expr,
    e: Expr,
) -> Result<Expr, Memory>
    ensures { IfOk result (λ c. c ≡ Expr.SignedCompare op d e) }
{
    Ok(Expr::SignedCompare(op, boxed(alloc, d)?, boxed(alloc, e)?))
}

pub(crate) fn overflow(alloc: Global, op: OverflowOp, d: Expr, e: Expr) -> Result<Expr, Memory>
    ensures { IfOk result (λ c. c ≡ Expr.Overflow op d e) }
{
    Ok(Expr::Overflow(op, boxed(alloc, d)?, boxed(alloc, e)?))
}

pub(crate) fn shift(alloc: Global, op: ShiftOp, d: Expr, e: Expr) -> Result<Expr, Memory>
    ensures { IfOk result (λ c. c ≡ Expr.Shift op d e) }
{
    Ok(Expr::Shift(op, boxed(alloc, d)?, boxed(alloc, e)?))
}

pub(crate) fn concat(alloc: Global, d: Expr, e: Expr) -> Result<Expr, Memory>
    ensures { IfOk result (λ c. c ≡ Expr.Concat d e) }
{
    Ok(Expr::Concat(boxed(alloc, d)?, boxed(alloc, e)?))
}

pub(crate) fn count(alloc: Global, op: CountOp, e: Expr) -> Result<Expr, Memory>
    ensures { IfOk result (λ c. c ≡ Expr.Count op e) }
{
    Ok(Expr::Count(op, boxed(alloc, e)?))
}

pub(crate) fn part(alloc: Global, dropped: u8, bytes: u32, e: Expr) -> Result<Expr, Memory>
    ensures { IfOk result (λ c. c ≡ Expr.Part dropped (width_of bytes) e) }
{
    Ok(Expr::Part(dropped, width_by(bytes), boxed(alloc, e)?))
}

pub(crate) fn division(alloc: Global, op: DivisionOp, d: Expr, e: Expr) -> Result<Expr, Memory>
    ensures { IfOk result (λ c. c ≡ Expr.Division op d e) }
{
    Ok(Expr::Division(op, boxed(alloc, d)?, boxed(alloc, e)?))
}

pub(crate) fn signed_division(
    alloc: Global,
    op: SignedDivisionOp,
    d: Expr,
    e: Expr,
) -> Result<Expr, Memory>
    ensures { IfOk result (λ c. c ≡ Expr.SignedDivision op d e) }
{
    Ok(Expr::SignedDivision(op, boxed(alloc, d)?, boxed(alloc, e)?))
}
