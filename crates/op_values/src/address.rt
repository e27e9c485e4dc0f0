//! Addresses.

ghost use Rattle.std.specs.Prelude.{◌≡◌, IfOk};
ghost use Rattle.op_values.specs.Nodes.{address_node as address_of};

use crate::nodes::{arithmetic, constant, extended};
use bits_core::Memory;
use cmeaning::{ArithmeticOp, Expr, ExtendOp};
use std::alloc::Global;

/// The byte address that an expression of so many bytes counts, in a space of these bytes of an offset and of a word.
pub fn address_node(
    alloc: Global,
    offset: u8,
    word: u8,
    bytes: u32,
    e: Expr,
) -> Result<Expr, Memory>
    ensures { IfOk result (λ d. d ≡ address_of offset word bytes e) }
{
    if word == 1 {
        Ok(e)
    } else if bytes < u32::from(offset) {
        let wide = extended(alloc, ExtendOp::Zext, u32::from(offset), e)?;
        arithmetic(
            alloc,
            ArithmeticOp::Mul,
            wide,
            constant(u32::from(offset), u64::from(word)),
        )
    } else {
        arithmetic(
            alloc,
            ArithmeticOp::Mul,
            e,
            constant(bytes, u64::from(word)),
        )
    }
}
