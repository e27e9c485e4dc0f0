//! The way out of a block.

ghost use Rattle.std.specs.Prelude.{◌≡◌, ◌≤◌, ◌^◌, ◌++◌, length, IfOk, OnOk};
ghost use Rattle.pcode_model.specs.Flow.{AreApart};
ghost use Rattle.pcode_model.specs.Places.{standing};
ghost use Rattle.op_code.specs.Adds.{Adds, before_one};
ghost use Rattle.op_code.specs.Lowered.{condition_in, result as result_for, way_out as way_out_of};

use bits_core::Memory;
use blockcode::{Exit, Variables};
use cmeaning::{Body, Expr};
use instructions::{op_at, result_range};
use op_code::{Table, range_word, read};
use op_values::constant;
use pcode_model::{Exit as FlowExit, Listing, Place};
use std::alloc::Global;

/// The function's result, where its prototype has one.
fn result(alloc: Global, listing: &Listing, table: &Table) -> Result<Option<Expr>, Memory>
    ensures { IfOk result (λ word. word ≡ result_for listing.now table.now) }
{
    match result_range(listing) {
        Some(range) => Ok(Some(range_word(alloc, listing, table, range)?)),
        None => Ok(None),
    }
}

/// What the op at a place tests, loaded to a local where it stands in memory.
fn condition(
    alloc: Global,
    listing: &Listing,
    table: &Table,
    variables: &mut Variables,
    body: &mut Body,
    place: Place,
) -> Result<Expr, Memory>
    requires code { AreApart listing.now.code }
    requires few { length variables.old ≤ 2 ^ 32 }
    ensures word { IfOk result (λ e.
        e ≡ (condition_in listing.now table.now (length variables.old) (standing listing.now place)).word) }
    ensures added { OnOk result (Adds variables.old variables.new body.old body.new
        (before_one (condition_in listing.now table.now (length variables.old) (standing listing.now place)))) }
{
    match op_at(listing, place) {
        Some(op) => read(alloc, listing, table, variables, body, op.input(1)),
        None => Ok(constant(1, 0)),
    }
}

/// How code leaves a block at its last place. What has to be done before is added to the body.
pub(crate) fn way_out(
    alloc: Global,
    listing: &Listing,
    table: &Table,
    variables: &mut Variables,
    body: &mut Body,
    last: Place,
    exit: &FlowExit,
) -> Result<Exit, Memory>
    requires code { AreApart listing.now.code }
    requires few { length variables.old ≤ 2 ^ 32 }
    ensures exit { IfOk result (λ e.
        e ≡ (way_out_of listing.now table.now (length variables.old) (standing listing.now last) exit.now).exit) }
    ensures loads { OnOk result (body.new ≡ body.old
        ++ (way_out_of listing.now table.now (length variables.old) (standing listing.now last) exit.now).loads) }
    ensures locals { OnOk result (variables.new ≡ variables.old
        ++ (way_out_of listing.now table.now (length variables.old) (standing listing.now last) exit.now).locals) }
    ensures few { OnOk result (length variables.new ≤ 2 ^ 32) }
{
    match exit {
        FlowExit::Return => Ok(Exit::Return(result(alloc, listing, table)?)),
        FlowExit::Jump(to) => Ok(Exit::Jump(*to)),
        FlowExit::Test { taken, other } => {
            if *taken == *other {
                return Ok(Exit::Jump(*taken));
            }
            let condition = condition(alloc, listing, table, variables, body, last)?;
            Ok(Exit::Test {
                condition,
                taken: *taken,
                other: *other,
            })
        }
        FlowExit::Switch { .. } => Ok(Exit::Stop),
        FlowExit::Stop => Ok(Exit::Stop),
    }
}
