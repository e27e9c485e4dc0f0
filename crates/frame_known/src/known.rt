//! What is known before each place.

ghost use Rattle.std.specs.Prelude.{◌≡◌, ℕ, ◌<◌, ◌≤◌, [], false, true, length, replicate, slice_get, None, Some, MatchOption, IfOk, IfSome, OnOk, vec_len};
ghost use Rattle.pcode_model.specs.Flow.{IsFlow, NoFault, starts_of};
ghost use Rattle.pcode_model.specs.Places.{place as place_of};
ghost use Rattle.pcode_model.specs.Step.{first_place};
ghost use Rattle.pcode_model.specs.WellFormed.{IsWellFormed};
ghost use Rattle.frame_known.specs.Rows.{IsRow};
ghost use Rattle.frame_known.specs.Slots.{AreSlots};
ghost use Rattle.frame_known.specs.Entering.{AreInside, AreLong, nexts, row_at, waits_at};
ghost use Rattle.frame_known.specs.Known.{AreKnown};
ghost use Rattle.frame_known.specs.Passing.{Passed, begins_in, end_in};
ghost use Rattle.frame_known.specs.Meeting.{along};
ghost use Rattle.frame_known.specs.Settling.{Nothing_owed, Settled, Settling};

use crate::entering::{Rows, copied, leave};
use crate::meeting::{first_row, pass_along};
use crate::rows::Row;
use crate::slots::{Slots, slots_of};
use bits_core::Memory;
use pcode_model::{Block, Flow, Listing, Place};
use std::alloc::Global;

/// What is known where each block begins.
#[derive(Drop)]
pub struct Known {
    pub slots: Slots,
    pub rows: Rows,
}

// A row for each block, none of which is made yet.
fn no_rows(alloc: Global, count: usize) -> Result<Rows, Memory>
    ensures { IfOk result (λ rows. rows.items ≡ replicate count None) }
{
    let mut rows = Vec::new(alloc);
    for _number in 0..count {
        rows.push(None)?;
    }
    Ok(rows)
}

// A mark for each block, whether it waits: none does.
fn no_marks(alloc: Global, count: usize) -> Result<Vec<bool>, Memory>
    ensures { IfOk result (λ marks. marks.items ≡ replicate count false) }
{
    match vec![in alloc; false; count] {
        Ok(marks) => Ok(marks),
        Err(_) => Err(Memory),
    }
}

fn begins(block: &Block, place: Place) -> bool
    ensures { result ≡ begins_in block.now.places place }
{
    match block.places.as_slice() {
        [] => false,
        [first, ..] => first.address == place.address && first.index == place.index,
    }
}

// The number of the block where the function begins.
fn entry_number(listing: &Listing, blocks: &[Block]) -> usize
    requires { IsFlow listing.now [] blocks.now }
    ensures { slice_get (starts_of blocks.now) result ≡ Some (first_place listing.now) }
{
    let entry = Place {
        address: listing.func.address,
        index: 0,
    };
    for number in 0..blocks.len() {
        if begins(&blocks[number], entry) {
            return number;
        }
    }
    0
}

// The first of the blocks from one number up to another one that waits.
fn waiting_between(waits: &[bool], from: usize, to: usize) -> Option<usize>
    requires { to ≤ length waits.now }
    ensures { MatchOption result ((k : ℕ) → from ≤ k → k < to → waits_at waits.now k ≡ false)
        (λ n. (n < length waits.now) × (waits_at waits.now n ≡ true)) }
{
    for number in from..to {
        if waits[number] {
            return Some(number);
        }
    }
    None
}

// The next block that waits, from a number on and round.
fn next_waiting(waits: &[bool], from: usize) -> Option<usize>
    requires { from ≤ length waits.now }
    ensures { MatchOption result ((k : ℕ) → k < length waits.now → waits_at waits.now k ≡ false)
        (λ n. (n < length waits.now) × (waits_at waits.now n ≡ true)) }
{
    match waiting_between(waits, from, waits.len()) {
        Some(number) => Some(number),
        None => waiting_between(waits, 0, from),
    }
}

fn end_row(
    alloc: Global,
    listing: &Listing,
    slots: &Slots,
    row: &Row,
    places: &[Place],
) -> Result<Row, Memory>
    requires read { IsWellFormed listing.now }
    requires slots { AreSlots listing.now slots.now }
    requires row { IsRow slots.now row.now }
    ensures value { IfOk result (λ out. out ≡ along listing.now slots.now row.now places.now) }
    ensures row { IfOk result (IsRow slots.now) }
{
    let mut out = copied(alloc, row)?;
    pass_along(listing, slots, &mut out, places);
    Ok(out)
}

// What is known at the end of a block, where there is a row at its beginning.
fn end(
    alloc: Global,
    listing: &Listing,
    slots: &Slots,
    row: &Option<Row>,
    places: &[Place],
) -> Result<Option<Row>, Memory>
    requires read { IsWellFormed listing.now }
    requires slots { AreSlots listing.now slots.now }
    requires row { IfSome row.now (IsRow slots.now) }
    ensures value { IfOk result (λ out. out ≡ end_in listing.now slots.now row.now places.now) }
    ensures row { IfOk result (λ out. IfSome out (IsRow slots.now)) }
{
    match row {
        Some(row) => Ok(Some(end_row(alloc, listing, slots, row, places)?)),
        None => Ok(None),
    }
}

// Brings what is known at the end of a block to the blocks behind it.
fn pass(
    alloc: Global,
    listing: &Listing,
    slots: &Slots,
    block: &Block,
    rows: &mut Rows,
    waits: &mut Vec<bool>,
    number: usize,
) -> Result<(), Memory>
    requires read { IsWellFormed listing.now }
    requires slots { AreSlots listing.now slots.now }
    requires number { number < vec_len rows.old }
    requires row { IfSome (row_at rows.old.items number) (IsRow slots.now) }
    requires inside { AreInside (vec_len rows.old) (nexts block.now.exit) }
    requires waits { vec_len waits.old ≡ vec_len rows.old }
    requires long { AreLong (length slots.now.keys.items) rows.old.items }
    ensures { OnOk result (Passed listing.now slots.now block.now number rows.old.items waits.old.items rows.new.items waits.new.items) }
{
    match end(
        alloc,
        listing,
        slots,
        &rows[number],
        block.places.as_slice(),
    )? {
        Some(out) => leave(alloc, rows, waits, &block.exit, &out),
        None => Ok(()),
    }
}

// Passes blocks until none waits.
fn settle(
    alloc: Global,
    listing: &Listing,
    slots: &Slots,
    blocks: &[Block],
    rows: &mut Rows,
    waits: &mut Vec<bool>,
) -> Result<(), Memory>
    requires read { IsWellFormed listing.now }
    requires flow { IsFlow listing.now [] blocks.now }
    requires sound { NoFault listing.now [] }
    requires slots { AreSlots listing.now slots.now }
    requires settling { Settling listing.now slots.now blocks.now Nothing_owed rows.old.items waits.old.items }
    ensures { OnOk result (Settled listing.now slots.now blocks.now rows.new.items) }
{
    let mut from = 0;
    while let Some(number) = next_waiting(waits, from) {
        waits[number] = false;
        from = number;
        pass(alloc, listing, slots, &blocks[number], rows, waits, number)?;
    }
    Ok(())
}

fn settled_rows(
    alloc: Global,
    listing: &Listing,
    slots: &Slots,
    blocks: &[Block],
) -> Result<Rows, Memory>
    requires read { IsWellFormed listing.now }
    requires flow { IsFlow listing.now [] blocks.now }
    requires sound { NoFault listing.now [] }
    requires slots { AreSlots listing.now slots.now }
    ensures { IfOk result (λ rows. Settled listing.now slots.now blocks.now rows.items) }
{
    let first = first_row(alloc, listing, slots)?;
    let mut rows = no_rows(alloc, blocks.len())?;
    let mut waits = no_marks(alloc, blocks.len())?;
    let start = entry_number(listing, blocks);
    rows[start] = Some(first);
    waits[start] = true;
    settle(alloc, listing, slots, blocks, &mut rows, &mut waits)?;
    Ok(rows)
}

/// What is known of addresses of the stack before each place of a listing with this flow.
pub fn known_facts(alloc: Global, listing: &Listing, flow: &Flow) -> Result<Known, Memory>
    requires read { IsWellFormed listing.now }
    requires flow { IsFlow listing.now [] flow.now }
    requires sound { NoFault listing.now [] }
    ensures { IfOk result (λ known. AreKnown listing.now flow.now known) }
{
    let slots = slots_of(alloc, listing)?;
    let rows = settled_rows(alloc, listing, &slots, flow.as_slice())?;
    Ok(Known { slots, rows })
}
