//! The statements that stand for ops.

ghost use Rattle.std.specs.Prelude.{◌≡◌, ◌≤◌, ◌^◌, None, length, IfOk, OnOk};
ghost use Rattle.pcode_model.specs.Spaces.{kind_of};
ghost use Rattle.op_code.specs.Adds.{Adds};
ghost use Rattle.op_code.specs.FrameTable.{HasFrameRanges, own_of};
ghost use Rattle.op_code.specs.LeftTable.{IsLeft};
ghost use Rattle.op_code.specs.Made.{divides, divides_at, loads_by, none_own, op_made, stores_by};
ghost use Rattle.op_code.specs.Sources.{set_to};

use crate::calls::{add_call, add_indirect_call, add_other};
use crate::frame::{OwnAccesses, frame_range};
use crate::left::LeftTable;
use crate::memory::{address, space_name};
use crate::outputs::{Source, set, set_range};
use crate::reads::{read_both, read_input};
use crate::table::Table;
use crate::words::range_word;
use bits_core::{Binary, Divide, Memory, Unary};
use blockcode::Variables;
use cmeaning::{Body, Expr, Stmt};
use op_values::{binary_node, divides_by, division_node, statement_of, unary_node, width_by};
use pcode_model::{Listing, Op, Opcode, SpaceKind, Varnode};
use std::alloc::Global;

fn add_unary(
    alloc: Global,
    listing: &Listing,
    table: &Table,
    variables: &mut Variables,
    body: &mut Body,
    code: Unary,
    op: &Op,
) -> Result<(), Memory>
    requires few { length variables.old ≤ 2 ^ 32 }
    ensures { OnOk result (Adds variables.old variables.new body.old body.new
        (op_made listing.now none_own table.now (length variables.old) (Opcode.Unary code) op.now.out op.now.inputs)) }
{
    let input = read_input(alloc, listing, table, variables, body, op, 0)?;
    let value = unary_node(alloc, code, op.size_out(), input)?;
    let source = Source::Value(value);
    set(alloc, listing, table, variables, body, op.out, source)
}

fn add_binary(
    alloc: Global,
    listing: &Listing,
    table: &Table,
    variables: &mut Variables,
    body: &mut Body,
    code: Binary,
    op: &Op,
) -> Result<(), Memory>
    requires few { length variables.old ≤ 2 ^ 32 }
    ensures { OnOk result (Adds variables.old variables.new body.old body.new
        (op_made listing.now none_own table.now (length variables.old) (Opcode.Binary code) op.now.out op.now.inputs)) }
{
    let (left, right) = read_both(alloc, listing, table, variables, body, op, 0)?;
    let from = op.input(0).size;
    let dropped = op.input(1).offset;
    let value = binary_node(alloc, code, from, dropped, op.size_out(), left, right)?;
    let source = Source::Value(value);
    set(alloc, listing, table, variables, body, op.out, source)
}

/// Whether a division by a range is an expression.
fn is_expression(listing: &Listing, code: Divide, divisor: Varnode) -> bool
    ensures { result ≡ divides_at (kind_of listing.now divisor.space) code divisor }
{
    match listing.space_kind(divisor.space) {
        SpaceKind::Constant => divides_by(code, width_by(divisor.size), divisor.offset),
        SpaceKind::Ram | SpaceKind::Register | SpaceKind::Unique => false,
    }
}

fn quotient(
    alloc: Global,
    listing: &Listing,
    code: Divide,
    divisor: Varnode,
    left: Expr,
    right: Expr,
) -> Result<Source, Memory>
    ensures { IfOk result (λ source. set_to source ≡ divides listing.now code divisor left right) }
{
    if is_expression(listing, code, divisor) {
        Ok(Source::Value(division_node(alloc, code, left, right)?))
    } else {
        Ok(Source::Divide {
            op: statement_of(code),
            left,
            right,
        })
    }
}

fn add_divide(
    alloc: Global,
    listing: &Listing,
    table: &Table,
    variables: &mut Variables,
    body: &mut Body,
    code: Divide,
    op: &Op,
) -> Result<(), Memory>
    requires few { length variables.old ≤ 2 ^ 32 }
    ensures { OnOk result (Adds variables.old variables.new body.old body.new
        (op_made listing.now none_own table.now (length variables.old) (Opcode.Divide code) op.now.out op.now.inputs)) }
{
    let (left, right) = read_both(alloc, listing, table, variables, body, op, 0)?;
    let source = quotient(alloc, listing, code, op.input(1), left, right)?;
    set(alloc, listing, table, variables, body, op.out, source)
}

/// Adds a LOAD by a pointer.
fn add_pointer_load(
    alloc: Global,
    listing: &Listing,
    table: &Table,
    variables: &mut Variables,
    body: &mut Body,
    op: &Op,
) -> Result<(), Memory>
    requires few { length variables.old ≤ 2 ^ 32 }
    ensures { OnOk result (Adds variables.old variables.new body.old body.new
        (loads_by None listing.now table.now (length variables.old) op.now.out op.now.inputs)) }
{
    let offset = read_input(alloc, listing, table, variables, body, op, 1)?;
    let number = op.input(0).offset;
    let source = Source::Load {
        space: space_name(alloc, listing, number)?,
        address: address(alloc, listing, number, op.input(1).size, offset)?,
    };
    set(alloc, listing, table, variables, body, op.out, source)
}

fn add_load(
    alloc: Global,
    listing: &Listing,
    own: &OwnAccesses,
    table: &Table,
    variables: &mut Variables,
    body: &mut Body,
    op: &Op,
) -> Result<(), Memory>
    requires frame { HasFrameRanges listing.now }
    requires few { length variables.old ≤ 2 ^ 32 }
    ensures { OnOk result (Adds variables.old variables.new body.old body.new
        (op_made listing.now (own_of own.now) table.now (length variables.old)
        Opcode.Load op.now.out op.now.inputs)) }
{
    let Some(at) = own.offset(0) else {
        return add_pointer_load(alloc, listing, table, variables, body, op);
    };
    let range = frame_range(listing, at, op.size_out());
    let source = Source::Value(range_word(alloc, listing, table, range)?);
    set(alloc, listing, table, variables, body, op.out, source)
}

/// Adds a STORE by a pointer.
fn add_pointer_store(
    alloc: Global,
    listing: &Listing,
    table: &Table,
    variables: &mut Variables,
    body: &mut Body,
    op: &Op,
) -> Result<(), Memory>
    requires few { length variables.old ≤ 2 ^ 32 }
    ensures { OnOk result (Adds variables.old variables.new body.old body.new
        (stores_by None listing.now table.now (length variables.old) op.now.inputs)) }
{
    let (offset, value) = read_both(alloc, listing, table, variables, body, op, 1)?;
    let number = op.input(0).offset;
    body.push(Stmt::Store {
        space: space_name(alloc, listing, number)?,
        address: address(alloc, listing, number, op.input(1).size, offset)?,
        value,
    })?;
    Ok(())
}

fn add_store(
    alloc: Global,
    listing: &Listing,
    own: &OwnAccesses,
    table: &Table,
    variables: &mut Variables,
    body: &mut Body,
    op: &Op,
) -> Result<(), Memory>
    requires frame { HasFrameRanges listing.now }
    requires few { length variables.old ≤ 2 ^ 32 }
    ensures { OnOk result (Adds variables.old variables.new body.old body.new
        (op_made listing.now (own_of own.now) table.now (length variables.old)
        Opcode.Store op.now.out op.now.inputs)) }
{
    let Some(at) = own.offset(0) else {
        return add_pointer_store(alloc, listing, table, variables, body, op);
    };
    let range = frame_range(listing, at, op.input(2).size);
    let source = Source::Value(read_input(alloc, listing, table, variables, body, op, 2)?);
    set_range(alloc, listing, table, variables, body, range, source)
}

/// Adds what stands for an op that leads on: its statements behind `body`, and its locals behind `variables`. `Memory`
/// where memory or the numbers of 32 bits run out.
pub fn add_op(
    alloc: Global,
    listing: &Listing,
    own: &OwnAccesses,
    table: &Table,
    left: &LeftTable,
    variables: &mut Variables,
    body: &mut Body,
    op: &Op,
) -> Result<(), Memory>
    requires frame { HasFrameRanges listing.now }
    requires left { IsLeft listing.now table.now left.now }
    requires few { length variables.old ≤ 2 ^ 32 }
    ensures { OnOk result (Adds variables.old variables.new body.old body.new
        (op_made listing.now (own_of own.now) table.now (length variables.old) op.now.code op.now.out op.now.inputs)) }
{
    match &op.code {
        Opcode::Unary(code) => add_unary(alloc, listing, table, variables, body, *code, op),
        Opcode::Binary(code) => add_binary(alloc, listing, table, variables, body, *code, op),
        Opcode::Divide(code) => add_divide(alloc, listing, table, variables, body, *code, op),
        Opcode::Load => add_load(alloc, listing, own, table, variables, body, op),
        Opcode::Store => add_store(alloc, listing, own, table, variables, body, op),
        Opcode::Call => add_call(alloc, listing, own, table, left, variables, body, op),
        Opcode::CallInd => add_indirect_call(alloc, listing, own, table, left, variables, body, op),
        Opcode::CallOther => add_other(alloc, listing, table, variables, body, op),
        _ => Ok(()),
    }
}
