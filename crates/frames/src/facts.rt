//! The facts where blocks begin.

ghost use Rattle.std.specs.Prelude.{◌≡◌, [], ◌<◌, ◌++◌, length, slice_get, slice_index, IfOk, IfSome, OnOk};
ghost use Rattle.std.specs.List.{AllByRecursion};
ghost use Rattle.pcode_model.specs.Flow.{IsFlow};
ghost use Rattle.pcode_model.specs.WellFormed.{IsWellFormed};
ghost use Rattle.frame_facts.specs.Listed.{IsFactBefore, IsListedFact, Lists};
ghost use Rattle.frame_known.specs.Rows.{IsBelow, IsRow};
ghost use Rattle.frame_known.specs.Slots.{AreSlots};
ghost use Rattle.frame_known.specs.Known.{AreKnown};
ghost use Rattle.frames.specs.Walk.{fact_in, facts_found as facts_in, facts_from, facts_of};

use crate::offsets::signed;
use bits_core::Memory;
use frame_known::{Known, Row, Slots};
use pcode_model::{Block, Listing, OffsetFact, Place};
use std::alloc::Global;

// The fact of a slot.
fn push_fact(
    facts: &mut Vec<OffsetFact>,
    listing: &Listing,
    slots: &Slots,
    place: Place,
    slot: usize,
    known: Option<u64>,
) -> Result<(), Memory>
    requires read { IsWellFormed listing.now }
    requires slots { AreSlots listing.now slots.now }
    requires slot { slot < length slots.now.keys.items }
    requires below { IsBelow slots.now.offsets known }
    ensures { OnOk result (facts.new.items
        ≡ facts.old.items ++ fact_in listing.now place slots.now.width (slice_index slots.now.keys.items slot) known) }
{
    if let Some(offset) = known {
        facts.push(OffsetFact {
            place,
            range: slots.range(slot),
            offset: signed(listing, offset),
        })?;
    }
    Ok(())
}

// The facts of a row.
fn push_row(
    facts: &mut Vec<OffsetFact>,
    listing: &Listing,
    slots: &Slots,
    place: Place,
    row: &[Option<u64>],
) -> Result<(), Memory>
    requires read { IsWellFormed listing.now }
    requires slots { AreSlots listing.now slots.now }
    requires row { IsRow slots.now row.now }
    ensures { OnOk result (facts.new.items
        ≡ facts.old.items ++ facts_of listing.now place slots.now.width slots.now.keys.items row.now) }
{
    for slot in 0..slots.len() {
        push_fact(facts, listing, slots, place, slot, row[slot])?;
    }
    Ok(())
}

// The facts where a block begins.
fn push_block(
    facts: &mut Vec<OffsetFact>,
    listing: &Listing,
    slots: &Slots,
    row: &Option<Row>,
    places: &[Place],
) -> Result<(), Memory>
    requires read { IsWellFormed listing.now }
    requires slots { AreSlots listing.now slots.now }
    requires row { IfSome row.now (IsRow slots.now) }
    ensures { OnOk result (facts.new.items ≡ facts.old.items ++ facts_from listing.now slots.now row.now places.now) }
{
    match (row, places) {
        (Some(row), [place, ..]) => push_row(facts, listing, slots, *place, row.as_slice()),
        _ => Ok(()),
    }
}

// The facts where blocks begin, as a walk over the blocks finds them.
fn walk(
    alloc: Global,
    listing: &Listing,
    known: &Known,
    blocks: &[Block],
) -> Result<Vec<OffsetFact>, Memory>
    requires read { IsWellFormed listing.now }
    requires known { AreKnown listing.now blocks.now known.now }
    ensures { IfOk result (λ facts. facts.items ≡ facts_in listing.now known.now.slots known.now.rows.items blocks.now) }
{
    let mut facts = Vec::new(alloc);
    for number in 0..blocks.len() {
        push_block(
            &mut facts,
            listing,
            &known.slots,
            &known.rows[number],
            blocks[number].places.as_slice(),
        )?;
    }
    Ok(facts)
}

/// The facts where blocks begin, by rising place, and at one place by range.
pub fn facts_found(
    alloc: Global,
    listing: &Listing,
    known: &Known,
    blocks: &[Block],
) -> Result<Vec<OffsetFact>, Memory>
    requires read { IsWellFormed listing.now }
    requires known { AreKnown listing.now blocks.now known.now }
    requires flow { IsFlow listing.now [] blocks.now }
    ensures { IfOk result (λ facts. Lists (IsListedFact listing.now []) IsFactBefore facts.items) }
{
    let facts = walk(alloc, listing, known, blocks)?;
    Ok(facts)
}
