//! Parts of words.

ghost use Rattle.std.specs.Prelude.{◌≡◌, ◌<◌, IfOk};
ghost use Rattle.op_values.specs.Nodes.{within_node, part_node as part_of};

use crate::nodes::{constant, extended, part};
use bits_core::{Memory, Width};
use cmeaning::{Expr, ExtendOp};
use std::alloc::Global;

// Bytes that lie within the expression.
fn within(alloc: Global, from: Width, dropped: u8, bytes: u32, e: Expr) -> Result<Expr, Memory>
    ensures { IfOk result (λ d. d ≡ within_node from.bytes dropped bytes e) }
{
    if bytes == u32::from(from.bytes) {
        Ok(e)
    } else {
        part(alloc, dropped, bytes, e)
    }
}

// The first bytes that are taken lie within the expression.
fn over(alloc: Global, from: Width, dropped: u8, bytes: u32, e: Expr) -> Result<Expr, Memory>
    requires { dropped < from.bytes }
    ensures { IfOk result (λ d. d ≡ part_of from.bytes dropped bytes e) }
{
    let left = u32::from(from.bytes - dropped);
    if bytes <= left {
        within(alloc, from, dropped, bytes, e)
    } else {
        let inside = within(alloc, from, dropped, left, e)?;
        extended(alloc, ExtendOp::Zext, bytes, inside)
    }
}

/// So many bytes of an expression behind those that are dropped; zeros stand past its top.
pub fn part_node(
    alloc: Global,
    from: Width,
    dropped: u64,
    bytes: u32,
    e: Expr,
) -> Result<Expr, Memory>
    ensures { IfOk result (λ d. d ≡ part_of from.bytes dropped bytes e) }
{
    if u64::from(from.bytes) <= dropped {
        Ok(constant(bytes, 0))
    } else {
        over(alloc, from, dropped as u8, bytes, e)
    }
}
