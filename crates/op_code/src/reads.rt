//! The words of operands.

ghost use Rattle.std.specs.Prelude.{◌≡◌, ◌<◌, ◌≤◌, ◌^◌, [], None, length, IfOk, OnOk};
ghost use Rattle.pcode_model.specs.declared.listing.SpaceKind.TheVariants.{Ram};
ghost use Rattle.pcode_model.specs.Step.{all_read, argument as operand_of, arguments as operands_of};
ghost use Rattle.op_code.specs.Adds.{Adds, before, before_one};
ghost use Rattle.op_code.specs.FrameTable.{HasFrameRanges, own_of};
ghost use Rattle.op_code.specs.Made.{both_read, none_own, one_read, read_by, read_one, read_operand, read_stack, reads, word_at};

use crate::frame::{OwnAccesses, frame_range};
use crate::locals::new_local;
use crate::memory::{direct_address, space_name};
use crate::stack::above_stack;
use crate::table::Table;
use crate::words::range_word;
use bits_core::Memory;
use blockcode::Variables;
use cmeaning::{Body, Expr, Exprs, Stmt};
use op_values::constant;
use pcode_model::ranges::number_of;
use pcode_model::{Listing, Op, SpaceKind, Storage, Varnode};
use std::alloc::Global;

/// A direct range of memory is loaded to a local.
fn load(
    alloc: Global,
    listing: &Listing,
    variables: &mut Variables,
    body: &mut Body,
    range: Varnode,
) -> Result<Expr, Memory>
    ensures word { IfOk result (λ e. e ≡ (read_by Ram listing.now [] (length variables.old) range).word) }
    ensures added { OnOk result (Adds variables.old variables.new body.old body.new
        (before_one (read_by Ram listing.now [] (length variables.old) range))) }
{
    let target = new_local(variables, range.size)?;
    body.push(Stmt::Load {
        target,
        space: space_name(alloc, listing, u64::from(range.space))?,
        address: direct_address(listing, range),
    })?;
    Ok(Expr::Var(target))
}

/// The word of an operand, with what is done before it behind `body`. `Memory` where memory or the numbers of 32 bits
/// run out.
pub fn read(
    alloc: Global,
    listing: &Listing,
    table: &Table,
    variables: &mut Variables,
    body: &mut Body,
    range: Varnode,
) -> Result<Expr, Memory>
    requires few { length variables.old ≤ 2 ^ 32 }
    ensures word { IfOk result (λ e. e ≡ (read_one listing.now table.now (length variables.old) range).word) }
    ensures added { OnOk result (Adds variables.old variables.new body.old body.new
        (before_one (read_one listing.now table.now (length variables.old) range))) }
{
    match listing.space_kind(range.space) {
        SpaceKind::Constant => Ok(constant(range.size, range.offset)),
        SpaceKind::Ram => load(alloc, listing, variables, body, range),
        SpaceKind::Register | SpaceKind::Unique => range_word(alloc, listing, table, range),
    }
}

/// The word of an op's input of a number.
pub(crate) fn read_input(
    alloc: Global,
    listing: &Listing,
    table: &Table,
    variables: &mut Variables,
    body: &mut Body,
    op: &Op,
    number: usize,
) -> Result<Expr, Memory>
    requires few { length variables.old ≤ 2 ^ 32 }
    ensures word { IfOk result (λ e.
        e ≡ word_at (one_read listing.now table.now (length variables.old) op.now.inputs number) 0) }
    ensures added { OnOk result (Adds variables.old variables.new body.old body.new
        (before (one_read listing.now table.now (length variables.old) op.now.inputs number))) }
{
    read(alloc, listing, table, variables, body, op.input(number))
}

/// The words of an op's input of a number and the next.
pub(crate) fn read_both(
    alloc: Global,
    listing: &Listing,
    table: &Table,
    variables: &mut Variables,
    body: &mut Body,
    op: &Op,
    number: usize,
) -> Result<(Expr, Expr), Memory>
    requires few { length variables.old ≤ 2 ^ 32 }
    requires number { number < 2 }
    ensures first { IfOk result (λ both.
        both.0 ≡ word_at (both_read listing.now table.now (length variables.old) op.now.inputs number) 0) }
    ensures second { IfOk result (λ both.
        both.1 ≡ word_at (both_read listing.now table.now (length variables.old) op.now.inputs number) 1) }
    ensures added { OnOk result (Adds variables.old variables.new body.old body.new
        (before (both_read listing.now table.now (length variables.old) op.now.inputs number))) }
{
    let first = read(alloc, listing, table, variables, body, op.input(number))?;
    let second = read(alloc, listing, table, variables, body, op.input(number + 1))?;
    Ok((first, second))
}

/// The words of ranges, in their order.
#[tactic(auto, using(crate::proofs::Each::reads_from))]
pub(crate) fn read_each(
    alloc: Global,
    listing: &Listing,
    table: &Table,
    variables: &mut Variables,
    body: &mut Body,
    ranges: &[Varnode],
) -> Result<Exprs, Memory>
    requires few { length variables.old ≤ 2 ^ 32 }
    ensures words { IfOk result (λ es.
        es ≡ (reads listing.now none_own table.now (length variables.old) (all_read ranges.now)).words) }
    ensures added { OnOk result (Adds variables.old variables.new body.old body.new
        (before (reads listing.now none_own table.now (length variables.old) (all_read ranges.now)))) }
{
    let mut words = Exprs::new(alloc);
    for range in ranges {
        words.push(read(alloc, listing, table, variables, body, *range)?)?;
    }
    Ok(words)
}

/// Memory so many bytes above the stack pointer is loaded to a local.
fn load_above(
    alloc: Global,
    listing: &Listing,
    table: &Table,
    variables: &mut Variables,
    body: &mut Body,
    bytes: u32,
    size: u32,
) -> Result<Expr, Memory>
    ensures word { IfOk result (λ e.
        e ≡ (read_stack None listing.now table.now (length variables.old) bytes size).word) }
    ensures added { OnOk result (Adds variables.old variables.new body.old body.new
        (before_one (read_stack None listing.now table.now (length variables.old) bytes size))) }
{
    let ram = number_of(SpaceKind::Ram, listing.spaces.as_slice()) as u64;
    let target = new_local(variables, size)?;
    body.push(Stmt::Load {
        target,
        space: space_name(alloc, listing, ram)?,
        address: above_stack(alloc, listing, table, bytes)?,
    })?;
    Ok(Expr::Var(target))
}

/// The word of the argument of a number.
fn read_argument(
    alloc: Global,
    listing: &Listing,
    own: &OwnAccesses,
    table: &Table,
    variables: &mut Variables,
    body: &mut Body,
    number: u64,
    argument: Storage,
) -> Result<Expr, Memory>
    requires frame { HasFrameRanges listing.now }
    requires few { length variables.old ≤ 2 ^ 32 }
    ensures word { IfOk result (λ e.
        e ≡ (read_operand listing.now (own_of own.now) table.now (length variables.old)
        (operand_of number argument)).word) }
    ensures added { OnOk result (Adds variables.old variables.new body.old body.new
        (before_one (read_operand listing.now (own_of own.now) table.now (length variables.old)
        (operand_of number argument)))) }
{
    match argument {
        Storage::At(range) => read(alloc, listing, table, variables, body, range),
        Storage::Stack { offset, size } => match own.offset(number) {
            Some(at) => range_word(alloc, listing, table, frame_range(listing, at, size)),
            None => load_above(alloc, listing, table, variables, body, offset, size),
        },
    }
}

/// The words of arguments, in their order.
#[tactic(auto, using(crate::proofs::Each::reads_from))]
pub(crate) fn read_arguments(
    alloc: Global,
    listing: &Listing,
    own: &OwnAccesses,
    table: &Table,
    variables: &mut Variables,
    body: &mut Body,
    arguments: &[Storage],
) -> Result<Exprs, Memory>
    requires frame { HasFrameRanges listing.now }
    requires few { length variables.old ≤ 2 ^ 32 }
    ensures words { IfOk result (λ es.
        es ≡ (reads listing.now (own_of own.now) table.now (length variables.old)
        (operands_of 0 arguments.now)).words) }
    ensures added { OnOk result (Adds variables.old variables.new body.old body.new
        (before (reads listing.now (own_of own.now) table.now (length variables.old)
        (operands_of 0 arguments.now)))) }
{
    let mut words = Exprs::new(alloc);
    for at in 0..arguments.len() {
        let number = at as u64;
        let argument = arguments[at];
        words.push(read_argument(
            alloc, listing, own, table, variables, body, number, argument,
        )?)?;
    }
    Ok(words)
}
