//! Divisions by constants, and those that are statements.

ghost use Rattle.std.specs.Prelude.{◌≡◌, ◌-◌, IfOk};
ghost use Rattle.bits_core.specs.Value.{limit};
ghost use Rattle.op_values.specs.Nodes.{divides_by as divides, division_node as division_of, statement_of as statement_for};

use crate::nodes::{division, signed_division};
use bits_core::{Divide, Memory, Unary, Width, Word, unary};
use cmeaning::{DivisionOp, Expr, SignedDivisionOp, StatementDivision};
use std::alloc::Global;

// The word whose bits are all 1.
fn all_ones(width: Width) -> u128
    ensures { result ≡ limit width.bytes - 1 }
{
    unary(Unary::Complement, Word::new(0, width), width).value
}

/// Whether a division of words by a constant is an expression.
pub fn divides_by(op: Divide, width: Width, divisor: u64) -> bool
    ensures { result ≡ divides op width.bytes divisor }
{
    match op {
        Divide::Quotient | Divide::Remainder => divisor != 0,
        Divide::SignedQuotient | Divide::SignedRemainder => {
            divisor != 0 && u128::from(divisor) != all_ones(width)
        }
    }
}

/// The expression of a division.
pub fn division_node(alloc: Global, op: Divide, d: Expr, e: Expr) -> Result<Expr, Memory>
    ensures { IfOk result (λ c. c ≡ division_of op d e) }
{
    match op {
        Divide::Quotient => division(alloc, DivisionOp::Div, d, e),
        Divide::Remainder => division(alloc, DivisionOp::Rem, d, e),
        Divide::SignedQuotient => signed_division(alloc, SignedDivisionOp::SDiv, d, e),
        Divide::SignedRemainder => signed_division(alloc, SignedDivisionOp::SRem, d, e),
    }
}

/// The statement of a division.
pub fn statement_of(op: Divide) -> StatementDivision
    ensures { result ≡ statement_for op }
{
    match op {
        Divide::Quotient => StatementDivision::Div,
        Divide::Remainder => StatementDivision::Rem,
        Divide::SignedQuotient => StatementDivision::SDiv,
        Divide::SignedRemainder => StatementDivision::SRem,
    }
}
