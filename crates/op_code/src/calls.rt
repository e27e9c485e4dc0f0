//! The statements that stand for calls.

ghost use Rattle.std.specs.Prelude.{◌≡◌, ◌≤◌, ◌^◌, ◌++◌, length, map, OnOk};
ghost use Rattle.pcode_model.specs.Step.{proto_at};
ghost use Rattle.op_code.specs.Adds.{Adds};
ghost use Rattle.op_code.specs.Calling.{answered_by, called_by, given_by, result_given};
ghost use Rattle.op_code.specs.FrameTable.{HasFrameRanges, own_of};
ghost use Rattle.op_code.specs.Left.{takes_left};
ghost use Rattle.op_code.specs.LeftTable.{IsLeft};
ghost use Rattle.op_code.specs.Made.{none_own, op_made, pops_by};

use crate::covers::cover;
use crate::frame::OwnAccesses;
use crate::left::{LeftTable, Leftover};
use crate::memory::is_big;
use crate::outputs::{Source, set, set_range, target};
use crate::reads::{read_arguments, read_each, read_input};
use crate::stack::above;
use crate::table::Table;
use crate::words::assign_parts;
use bits_core::Memory;
use blockcode::Variables;
use cmeaning::{Body, Expr, Exprs, Stmt};
use instructions::{arguments, given, proto_called, returns};
use pcode_model::{Listing, Op, Opcode, Varnode};
use std::alloc::Global;

/// A call: of the function at an address, or of the one whose address is computed.
#[derive(Drop)]
pub(crate) enum Calling {
    Direct { callee: u64, args: Exprs },
    Indirect { callee: Expr, args: Exprs },
}

fn statement(call: Calling, target: Option<u32>) -> Stmt
    ensures { result ≡ called_by call target }
{
    match call {
        Calling::Direct { callee, args } => Stmt::Call {
            target,
            callee,
            args,
        },
        Calling::Indirect { callee, args } => Stmt::CallInd {
            target,
            callee,
            args,
        },
    }
}

/// The bytes by which the stack pointer stands higher after a call of the prototype of a number.
fn popped(listing: &Listing, proto: u32) -> u32
    ensures { result ≡ (proto_at listing.now proto).pop }
{
    match listing.protos.get(proto as usize) {
        Some(proto) => proto.pop,
        None => 0,
    }
}

/// Takes what a call left.
fn add_extras(body: &mut Body, left: &[Leftover]) -> Result<(), Memory>
    ensures { OnOk result (body.new ≡ body.old ++ map takes_left left.now) }
{
    for taken in left {
        body.push(Stmt::Extra {
            target: taken.variable,
            offset: taken.offset,
        })?;
    }
    Ok(())
}

/// Adds a call with a result: the variables of its range are assigned behind what the call left.
fn add_result(
    alloc: Global,
    listing: &Listing,
    table: &Table,
    left: &[Leftover],
    variables: &mut Variables,
    body: &mut Body,
    range: Varnode,
    call: Calling,
) -> Result<(), Memory>
    requires few { length variables.old ≤ 2 ^ 32 }
    ensures { OnOk result (Adds variables.old variables.new body.old body.new
        (result_given listing.now table.now (length variables.old) left.now range (called_by call))) }
{
    let pieces = cover(alloc, table, range)?;
    let target = target(variables, &pieces, range)?;
    body.push(statement(call, Some(target)))?;
    add_extras(body, left)?;
    let big = is_big(listing, u64::from(range.space));
    assign_parts(alloc, big, body, range, target, &pieces)
}

/// Adds a call of the prototype of a number, and what takes its answer.
fn add_given(
    alloc: Global,
    listing: &Listing,
    table: &Table,
    left: &LeftTable,
    variables: &mut Variables,
    body: &mut Body,
    proto: u32,
    call: Calling,
) -> Result<(), Memory>
    requires left { IsLeft listing.now table.now left.now }
    requires few { length variables.old ≤ 2 ^ 32 }
    ensures { OnOk result (Adds variables.old variables.new body.old body.new
        (given_by listing.now table.now (length variables.old) proto call)) }
{
    let left = left.of(proto);
    match given(listing, proto) {
        Some(range) => add_result(alloc, listing, table, left, variables, body, range, call),
        None => {
            body.push(statement(call, None))?;
            add_extras(body, left)
        }
    }
}

/// The stack pointer stands so many bytes higher.
fn add_pop(
    alloc: Global,
    listing: &Listing,
    table: &Table,
    variables: &mut Variables,
    body: &mut Body,
    bytes: u32,
) -> Result<(), Memory>
    requires few { length variables.old ≤ 2 ^ 32 }
    ensures { OnOk result (Adds variables.old variables.new body.old body.new
        (pops_by listing.now.stack bytes listing.now table.now (length variables.old))) }
{
    let Some(stack) = listing.stack else {
        return Ok(());
    };
    if bytes == 0 {
        return Ok(());
    }
    let source = Source::Value(above(alloc, listing, table, stack, bytes)?);
    set_range(alloc, listing, table, variables, body, stack, source)
}

/// Adds a call of the prototype of a number, what takes its answer, and the pop.
fn add_answered(
    alloc: Global,
    listing: &Listing,
    table: &Table,
    left: &LeftTable,
    variables: &mut Variables,
    body: &mut Body,
    proto: u32,
    call: Calling,
) -> Result<(), Memory>
    requires left { IsLeft listing.now table.now left.now }
    requires few { length variables.old ≤ 2 ^ 32 }
    ensures { OnOk result (Adds variables.old variables.new body.old body.new
        (answered_by listing.now table.now (length variables.old) proto call)) }
{
    add_given(alloc, listing, table, left, variables, body, proto, call)?;
    add_pop(
        alloc,
        listing,
        table,
        variables,
        body,
        popped(listing, proto),
    )
}

/// Adds what stands for a CALL.
pub(crate) fn add_call(
    alloc: Global,
    listing: &Listing,
    own: &OwnAccesses,
    table: &Table,
    left: &LeftTable,
    variables: &mut Variables,
    body: &mut Body,
    op: &Op,
) -> Result<(), Memory>
    requires frame { HasFrameRanges listing.now }
    requires left { IsLeft listing.now table.now left.now }
    requires few { length variables.old ≤ 2 ^ 32 }
    ensures { OnOk result (Adds variables.old variables.new body.old body.new
        (op_made listing.now (own_of own.now) table.now (length variables.old)
        Opcode.Call op.now.out op.now.inputs)) }
{
    let callee = op.input(0).offset;
    let proto = proto_called(listing, callee);
    let given = arguments(listing, proto);
    let args = read_arguments(alloc, listing, own, table, variables, body, given)?;
    if returns(listing, callee) {
        let call = Calling::Direct { callee, args };
        return add_answered(alloc, listing, table, left, variables, body, proto, call);
    }
    body.push(Stmt::Call {
        target: None,
        callee,
        args,
    })?;
    Ok(())
}

/// Adds what stands for a CALLIND.
pub(crate) fn add_indirect_call(
    alloc: Global,
    listing: &Listing,
    own: &OwnAccesses,
    table: &Table,
    left: &LeftTable,
    variables: &mut Variables,
    body: &mut Body,
    op: &Op,
) -> Result<(), Memory>
    requires frame { HasFrameRanges listing.now }
    requires left { IsLeft listing.now table.now left.now }
    requires few { length variables.old ≤ 2 ^ 32 }
    ensures { OnOk result (Adds variables.old variables.new body.old body.new
        (op_made listing.now (own_of own.now) table.now (length variables.old)
        Opcode.CallInd op.now.out op.now.inputs)) }
{
    let proto = listing.func.proto;
    let callee = read_input(alloc, listing, table, variables, body, op, 0)?;
    let given = arguments(listing, proto);
    let args = read_arguments(alloc, listing, own, table, variables, body, given)?;
    let call = Calling::Indirect { callee, args };
    add_answered(alloc, listing, table, left, variables, body, proto, call)
}

/// Adds what stands for a CALLOTHER.
pub(crate) fn add_other(
    alloc: Global,
    listing: &Listing,
    table: &Table,
    variables: &mut Variables,
    body: &mut Body,
    op: &Op,
) -> Result<(), Memory>
    requires few { length variables.old ≤ 2 ^ 32 }
    ensures { OnOk result (Adds variables.old variables.new body.old body.new
        (op_made listing.now none_own table.now (length variables.old) Opcode.CallOther op.now.out op.now.inputs)) }
{
    let args = read_each(alloc, listing, table, variables, body, op.past_first())?;
    let index = op.input(0).offset;
    if op.out.is_some() {
        let source = Source::Other { index, args };
        return set(alloc, listing, table, variables, body, op.out, source);
    }
    body.push(Stmt::Other {
        target: None,
        index,
        args,
    })?;
    Ok(())
}
