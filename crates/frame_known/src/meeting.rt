//! Rows at the entry, along a block, and where edges meet.

ghost use Rattle.std.specs.Prelude.{◌≡◌, ◌<◌, length, slice_index, IfOk};
ghost use Rattle.pcode_model.specs.WellFormed.{IsWellFormed};
ghost use Rattle.frame_known.specs.Rows.{IsRow};
ghost use Rattle.frame_known.specs.Slots.{AreSlots};
ghost use Rattle.frame_known.specs.Meeting.{KeepsCommon, along, first_entries, first_entry, is_lost};

use crate::rows::{Row, is_stack, over};
use crate::slots::Slots;
use bits_core::Memory;
use pcode_model::{Listing, Place};
use sqlite_items::Items;
use std::alloc::Global;

// The offset that is known of a slot as the function is entered.
fn entry(listing: &Listing, slots: &Slots, slot: usize) -> Option<u64>
    requires { slot < length slots.now.keys.items }
    ensures { result ≡ first_entry listing.now slots.now (slice_index slots.now.keys.items slot) }
{
    if is_stack(listing, slots, slot) {
        Some(0)
    } else {
        None
    }
}

/// What is known as the function is entered: the stack pointer alone.
pub(crate) fn first_row(alloc: Global, listing: &Listing, slots: &Slots) -> Result<Row, Memory>
    requires { AreSlots listing.now slots.now }
    ensures { IfOk result (λ row. row ≡ first_entries listing.now slots.now) }
{
    let mut row = Items::new(alloc);
    for slot in 0..slots.len() {
        row.push(entry(listing, slots, slot))?;
    }
    Ok(row)
}

/// What is known after places that follow one another, from what is known before them.
pub(crate) fn pass_along(listing: &Listing, slots: &Slots, row: &mut Row, places: &[Place])
    requires read { IsWellFormed listing.now }
    requires slots { AreSlots listing.now slots.now }
    requires row { IsRow slots.now row.old }
    ensures value { row.new ≡ along listing.now slots.now row.old places.now }
    ensures row { IsRow slots.now row.new }
{
    for place in places {
        over(listing, slots, row, *place);
    }
}

// Whether another row doesn't know what one knows of a slot.
fn is_lost(known: Option<u64>, other: Option<u64>) -> bool
    ensures { result ≡ is_lost known other }
{
    match (known, other) {
        (Some(offset), Some(other)) => offset != other,
        (Some(_), None) => true,
        (None, _) => false,
    }
}

/// Keeps of a row what another one knows too, and tells whether that is less.
pub(crate) fn keep_common(row: &mut Row, other: &[Option<u64>]) -> bool
    requires { length row.old ≡ length other.now }
    ensures { KeepsCommon row.old other.now result row.new }
{
    let mut less = false;
    for slot in 0..other.len() {
        if is_lost(row.as_slice()[slot], other[slot]) {
            row.set(slot, None);
            less = true;
        }
    }
    less
}
