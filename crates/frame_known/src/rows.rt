//! What is known of each slot before a place, and what an op makes of it.

ghost use Rattle.std.specs.Prelude.{◌≡◌, ◌-◌, ◌<◌, ◌≤◌, length, map, slice_index};
ghost use Rattle.std.specs.List.Sorted.{IsStrictlyIncreasing};
ghost use Rattle.pcode_model.specs.WellFormed.{IsWellFormed};
ghost use Rattle.pcode_model.specs.Places.{standing};
ghost use Rattle.pcode_model.specs.Step.{proto_at};
ghost use Rattle.frame_facts.specs.Escapes.{is_constant};
ghost use Rattle.frame_known.specs.Slots.{AreSlots};
ghost use Rattle.frame_known.specs.Rows.{IsRow, after, after_call, after_other, is_at, knows, left_by, made, offset_of, over_row, plus_if};
ghost use Rattle.frame_known.specs.Steps.{Forgotten, IsLeft, PassesOn};

use crate::calls::{keeps, kept, popped};
use crate::offsets::{first_of, plus, plus_if};
use crate::slots::{Slots, key};
use bits_core::{Binary, Unary};
use instructions::{op_at, proto_called};
use pcode_model::{Listing, Op, Opcode, Place, SpaceKind, Varnode};
use sqlite_items::Items;

/// For each slot the offset that is known of it.
pub type Row = Items<Option<u64>>;

/// The offset that a row knows of a range.
pub fn offset(slots: &Slots, row: &[Option<u64>], range: Varnode) -> Option<u64>
    requires slots { IsStrictlyIncreasing slots.now.keys.items }
    requires long { length row.now ≡ length slots.now.keys.items }
    ensures { result ≡ offset_of slots.now row.now range }
{
    match slots.find(range) {
        Some(slot) => row[slot],
        None => None,
    }
}

fn is_constant(listing: &Listing, range: Varnode) -> bool
    ensures { result ≡ is_constant listing.now range }
{
    SpaceKind::Constant.same(listing.space_kind(range.space))
}

// An offset and a constant.
fn sum(
    listing: &Listing,
    slots: &Slots,
    row: &[Option<u64>],
    base: Varnode,
    more: Varnode,
) -> Option<u64>
    requires slots { AreSlots listing.now slots.now }
    requires long { length row.now ≡ length slots.now.keys.items }
    ensures { result ≡ plus_if (is_constant listing.now more) slots.now.offsets (offset_of slots.now row.now base) more.offset }
{
    plus_if(
        is_constant(listing, more),
        slots.offsets,
        offset(slots, row, base),
        u128::from(more.offset),
    )
}

// An offset less a constant.
fn difference(
    listing: &Listing,
    slots: &Slots,
    row: &[Option<u64>],
    base: Varnode,
    less: Varnode,
) -> Option<u64>
    requires slots { AreSlots listing.now slots.now }
    requires long { length row.now ≡ length slots.now.keys.items }
    ensures { result ≡ plus_if (is_constant listing.now less) slots.now.offsets (offset_of slots.now row.now base)
        (slots.now.offsets - less.offset) }
{
    plus_if(
        is_constant(listing, less),
        slots.offsets,
        offset(slots, row, base),
        slots.offsets.saturating_sub(u128::from(less.offset)),
    )
}

// The offset that an op makes.
fn made(listing: &Listing, slots: &Slots, row: &[Option<u64>], op: &Op) -> Option<u64>
    requires slots { AreSlots listing.now slots.now }
    requires long { length row.now ≡ length slots.now.keys.items }
    ensures { result ≡ made listing.now slots.now row.now op.now.code op.now.inputs }
{
    match &op.code {
        Opcode::Unary(Unary::Copy) => offset(slots, row, op.input(0)),
        Opcode::Binary(Binary::Add) => first_of(
            sum(listing, slots, row, op.input(0), op.input(1)),
            sum(listing, slots, row, op.input(1), op.input(0)),
        ),
        Opcode::Binary(Binary::Subtract) => difference(
            listing,
            slots,
            row,
            op.input(0),
            op.input(1),
        ),
        _ => None,
    }
}

fn forget(row: &mut Row, low: usize, high: usize)
    requires { high ≤ length row.old }
    ensures { Forgotten low high row.old row.new }
{
    for slot in low..high {
        row.set(slot, None);
    }
}

// Forgets each slot that shares a byte with a range.
fn forget_written(slots: &Slots, row: &mut Row, out: Varnode)
    requires slots { IsStrictlyIncreasing slots.now.keys.items }
    requires long { length row.old ≡ length slots.now.keys.items }
    ensures { IsLeft slots.now out row.old row.new }
{
    let base = key(Varnode {
        space: out.space,
        offset: 0,
        size: 0,
    });
    let offset = u128::from(out.offset);
    let begin = (offset + 1).saturating_sub(u128::from(slots.width));
    let end = (offset + u128::from(out.size)).min(1 << 64);
    let low = slots.lower(base + begin);
    let high = slots.lower(base + end);
    forget(row, low, high);
}

fn over_other(listing: &Listing, slots: &Slots, row: &mut Row, op: &Op)
    requires slots { AreSlots listing.now slots.now }
    requires long { length row.old ≡ length slots.now.keys.items }
    ensures { row.new ≡ map (after_other listing.now slots.now row.old op.now) slots.now.keys.items }
{
    if let Some(out) = op.out {
        let made = made(listing, slots, row.as_slice(), op);
        forget_written(slots, row, out);
        if let Some(slot) = slots.find(out) {
            row.set(slot, made);
        }
    }
}

/// Whether a slot is the stack pointer's.
pub(crate) fn is_stack(listing: &Listing, slots: &Slots, slot: usize) -> bool
    requires { slot < length slots.now.keys.items }
    ensures { result ≡ is_at slots.now.width listing.now.stack (slice_index slots.now.keys.items slot) }
{
    match listing.stack {
        Some(stack) => stack.size == slots.width && key(stack) == slots.keys[slot],
        None => false,
    }
}

// What a call of a prototype leaves of a slot.
fn left(
    listing: &Listing,
    slots: &Slots,
    proto: u32,
    slot: usize,
    known: Option<u64>,
) -> Option<u64>
    requires slots { AreSlots listing.now slots.now }
    requires inside { slot < length slots.now.keys.items }
    ensures { result ≡ left_by listing.now slots.now (proto_at listing.now proto) (slice_index slots.now.keys.items slot) known }
{
    if is_stack(listing, slots, slot) {
        plus(slots.offsets, known, u128::from(popped(listing, proto)))
    } else if known.is_some() && keeps(listing, kept(listing, proto), slots.range(slot)) {
        known
    } else {
        None
    }
}

fn over_call(listing: &Listing, slots: &Slots, row: &mut Row, proto: u32)
    requires slots { AreSlots listing.now slots.now }
    requires long { length row.old ≡ length slots.now.keys.items }
    ensures { row.new ≡ map (after_call listing.now slots.now row.old (proto_at listing.now proto)) slots.now.keys.items }
{
    for slot in 0..slots.len() {
        let known = row.as_slice()[slot];
        row.set(slot, left(listing, slots, proto, slot, known));
    }
}

fn over_op(listing: &Listing, slots: &Slots, row: &mut Row, op: &Op)
    requires slots { AreSlots listing.now slots.now }
    requires long { length row.old ≡ length slots.now.keys.items }
    ensures { row.new ≡ map (after listing.now slots.now row.old op.now) slots.now.keys.items }
{
    match &op.code {
        Opcode::Call => over_call(
            listing,
            slots,
            row,
            proto_called(listing, op.input(0).offset),
        ),
        Opcode::CallInd => over_call(listing, slots, row, listing.func.proto),
        _ => over_other(listing, slots, row, op),
    }
}

/// What is known after what stands at a place, from what is known before it.
pub fn over(listing: &Listing, slots: &Slots, row: &mut Row, place: Place)
    requires read { IsWellFormed listing.now }
    requires slots { AreSlots listing.now slots.now }
    requires row { IsRow slots.now row.old }
    ensures value { row.new ≡ over_row listing.now slots.now row.old (standing listing.now place) }
    ensures row { IsRow slots.now row.new }
    ensures meaning { PassesOn listing.now (knows slots.now row.old) (standing listing.now place) (knows slots.now row.new) }
{
    if let Some(op) = op_at(listing, place) {
        over_op(listing, slots, row, op);
    }
}
