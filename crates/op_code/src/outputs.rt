//! What is assigned to outputs.

ghost use Rattle.std.specs.Prelude.{◌≡◌, ◌≤◌, ◌^◌, ◌++◌, [], length, IfOk, OnOk};
ghost use Rattle.pcode_model.specs.declared.listing.SpaceKind.TheVariants.{Ram};
ghost use Rattle.op_code.specs.Adds.{Adds};
ghost use Rattle.op_code.specs.Made.{local_for, set_by, sets, sets_range};
ghost use Rattle.op_code.specs.Sources.{set_to};
ghost use Rattle.op_code.specs.Words.{target_by};

use crate::covers::{Piece, cover};
use crate::locals::new_local;
use crate::memory::{direct_address, is_big, space_name};
use crate::table::Table;
use crate::words::assign_parts;
use bits_core::Memory;
use blockcode::Variables;
use cmeaning::{Body, Expr, Exprs, StatementDivision, Stmt};
use pcode_model::{Listing, Name, SpaceKind, Varnode};
use std::alloc::Global;

/// What a variable is set to.
#[derive(Drop)]
pub(crate) enum Source {
    Value(Expr),
    Load {
        space: Option<Name>,
        address: Expr,
    },
    Divide {
        op: StatementDivision,
        left: Expr,
        right: Expr,
    },
    Other {
        index: u64,
        args: Exprs,
    },
}

/// The statement that sets a variable.
fn statement(source: Source, target: u32) -> Stmt
    ensures { result ≡ set_to source target }
{
    match source {
        Source::Value(value) => Stmt::Assign { target, value },
        Source::Load { space, address } => Stmt::Load {
            target,
            space,
            address,
        },
        Source::Divide { op, left, right } => Stmt::Divide {
            target,
            op,
            left,
            right,
        },
        Source::Other { index, args } => Stmt::Other {
            target: Some(target),
            index,
            args,
        },
    }
}

/// Sets a direct range of memory, by a local that is stored.
fn set_memory(
    alloc: Global,
    listing: &Listing,
    variables: &mut Variables,
    body: &mut Body,
    out: Varnode,
    source: Source,
) -> Result<(), Memory>
    ensures { OnOk result (Adds variables.old variables.new body.old body.new
        (set_by Ram listing.now [] (length variables.old) out (set_to source))) }
{
    let target = new_local(variables, out.size)?;
    body.push(statement(source, target))?;
    body.push(Stmt::Store {
        space: space_name(alloc, listing, u64::from(out.space))?,
        address: direct_address(listing, out),
        value: Expr::Var(target),
    })?;
    Ok(())
}

/// The variable that a word is assigned to for these variables: the only one, or a local of so many bytes.
pub(crate) fn target(
    variables: &mut Variables,
    pieces: &[Piece],
    range: Varnode,
) -> Result<u32, Memory>
    requires few { length variables.old ≤ 2 ^ 32 }
    ensures number { IfOk result (λ n. n ≡ target_by (length variables.old) pieces.now) }
    ensures locals { OnOk result (variables.new ≡ variables.old ++ local_for pieces.now range) }
    ensures few { OnOk result (length variables.new ≤ 2 ^ 32) }
{
    match pieces {
        [piece] => Ok(piece.variable),
        _ => new_local(variables, range.size),
    }
}

/// Sets a range: its variable, or variables by a local that holds their word.
pub(crate) fn set_range(
    alloc: Global,
    listing: &Listing,
    table: &Table,
    variables: &mut Variables,
    body: &mut Body,
    out: Varnode,
    source: Source,
) -> Result<(), Memory>
    requires few { length variables.old ≤ 2 ^ 32 }
    ensures { OnOk result (Adds variables.old variables.new body.old body.new
        (sets_range listing.now table.now (length variables.old) out (set_to source))) }
{
    let pieces = cover(alloc, table, out)?;
    let target = target(variables, &pieces, out)?;
    body.push(statement(source, target))?;
    let big = is_big(listing, u64::from(out.space));
    assign_parts(alloc, big, body, out, target, &pieces)
}

/// Sets an output, where there is one.
pub(crate) fn set(
    alloc: Global,
    listing: &Listing,
    table: &Table,
    variables: &mut Variables,
    body: &mut Body,
    out: Option<Varnode>,
    source: Source,
) -> Result<(), Memory>
    requires few { length variables.old ≤ 2 ^ 32 }
    ensures { OnOk result (Adds variables.old variables.new body.old body.new
        (sets listing.now table.now (length variables.old) out (set_to source))) }
{
    let Some(range) = out else {
        return Ok(());
    };
    match listing.space_kind(range.space) {
        SpaceKind::Ram => set_memory(alloc, listing, variables, body, range, source),
        SpaceKind::Constant | SpaceKind::Register | SpaceKind::Unique => {
            set_range(alloc, listing, table, variables, body, range, source)
        }
    }
}
