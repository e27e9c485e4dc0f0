//! The accesses of the frame.

ghost use Rattle.std.specs.Prelude.{◌≡◌, ◌<◌, ◌≤◌, ◌^◌, ◌+◌, ◌++◌, ◌∷◌, [], pos, Some, drop, length, IfOk, IfSome, OnOk};
ghost use Rattle.pcode_model.specs.Flow.{IsFlow};
ghost use Rattle.pcode_model.specs.Step.{argument as argument_of, proto_at};
ghost use Rattle.pcode_model.specs.Step.{arguments as arguments_of};
ghost use Rattle.pcode_model.specs.WellFormed.{IsWellFormed};
ghost use Rattle.frame_facts.specs.Accesses.{only_memory, reach, reaches, stack_reaches, stack_width, frame_limit};
ghost use Rattle.frame_facts.specs.Accesses.{IsFrameAccess};
ghost use Rattle.frame_facts.specs.Listed.{IsAccessBefore, Lists};
ghost use Rattle.frame_facts.specs.Escapes.{is_of_memory};
ghost use Rattle.frame_known.specs.Rows.{IsRow, offset_of};
ghost use Rattle.frame_known.specs.Slots.{AreSlots};
ghost use Rattle.frame_known.specs.Known.{AreKnown};
ghost use Rattle.frames.specs.Walk.{access_in, accesses_at, accesses_of, along, along_from, is_near};
ghost use Rattle.frames.specs.Walk.{accesses_found as accesses_in};

use crate::offsets::signed;
use bits_core::Memory;
use frame_known::{Known, Row, Slots, offset, over};
use instructions::{arguments, op_at, proto_called};
use pcode_model::ranges::number_of;
use pcode_model::{Block, FrameAccess, Listing, Op, Opcode, Place, SpaceKind, Storage, Varnode};
use sqlite_items::Items;
use std::alloc::Global;

fn frame_limit(listing: &Listing) -> i64
    ensures { result ≡ pos (frame_limit (stack_width listing.now)) }
{
    match listing.stack {
        Some(stack) if stack.size == 2 => 1 << 12,
        _ => 1 << 20,
    }
}

fn is_near(listing: &Listing, offset: i64) -> bool
    ensures { result ≡ is_near listing.now offset }
{
    let limit = frame_limit(listing);
    -limit <= offset && offset <= limit
}

// The access by an address in a range and so many bytes more.
fn push_access(
    accesses: &mut Vec<FrameAccess>,
    listing: &Listing,
    slots: &Slots,
    row: &[Option<u64>],
    place: Place,
    number: u32,
    base: Varnode,
    above: u32,
    size: u32,
) -> Result<(), Memory>
    requires read { IsWellFormed listing.now }
    requires slots { AreSlots listing.now slots.now }
    requires row { IsRow slots.now row.now }
    ensures { OnOk result (accesses.new.items ≡ accesses.old.items
        ++ access_in listing.now place (reach number base above size) (offset_of slots.now row.now base)) }
{
    if let Some(known) = offset(slots, row, base) {
        let at = (u128::from(known) + u128::from(above)) % slots.offsets;
        let offset = signed(listing, at as u64);
        if is_near(listing, offset) {
            accesses.push(FrameAccess {
                place,
                argument: number,
                offset: offset as i32,
                size,
            })?;
        }
    }
    Ok(())
}

pub(crate) fn is_of_memory(listing: &Listing, op: &Op) -> bool
    ensures { result ≡ is_of_memory listing.now op.now.inputs }
{
    op.input(0).offset == number_of(SpaceKind::Ram, listing.spaces.as_slice()) as u64
}

// The access of a LOAD or STORE, which goes to the first ram space or not.
fn push_memory(
    accesses: &mut Vec<FrameAccess>,
    listing: &Listing,
    slots: &Slots,
    row: &[Option<u64>],
    place: Place,
    op: &Op,
    size: u32,
) -> Result<(), Memory>
    requires read { IsWellFormed listing.now }
    requires slots { AreSlots listing.now slots.now }
    requires row { IsRow slots.now row.now }
    ensures { OnOk result (accesses.new.items ≡ accesses.old.items
        ++ accesses_of listing.now slots.now row.now place (only_memory listing.now op.now.inputs size)) }
{
    if is_of_memory(listing, op) {
        push_access(
            accesses,
            listing,
            slots,
            row,
            place,
            0,
            op.input(1),
            0,
            size,
        )
    } else {
        Ok(())
    }
}

// The access of a call's argument of a number, above the stack pointer.
fn push_argument(
    accesses: &mut Vec<FrameAccess>,
    listing: &Listing,
    slots: &Slots,
    row: &[Option<u64>],
    place: Place,
    stack: Varnode,
    number: u32,
    argument: &Storage,
) -> Result<(), Memory>
    requires read { IsWellFormed listing.now }
    requires slots { AreSlots listing.now slots.now }
    requires row { IsRow slots.now row.now }
    ensures { OnOk result (accesses.new.items ≡ accesses.old.items
        ++ accesses_of listing.now slots.now row.now place
        (stack_reaches (Some stack) (argument_of number argument.now ∷ []))) }
{
    match argument {
        Storage::At(_) => Ok(()),
        Storage::Stack { offset, size } => push_access(
            accesses, listing, slots, row, place, number, stack, *offset, *size,
        ),
    }
}

fn push_arguments(
    accesses: &mut Vec<FrameAccess>,
    listing: &Listing,
    slots: &Slots,
    row: &[Option<u64>],
    place: Place,
    stack: Varnode,
    arguments: &[Storage],
) -> Result<(), Memory>
    requires read { IsWellFormed listing.now }
    requires slots { AreSlots listing.now slots.now }
    requires row { IsRow slots.now row.now }
    requires few { length arguments.now ≤ 16 }
    ensures { OnOk result (accesses.new.items ≡ accesses.old.items
        ++ accesses_of listing.now slots.now row.now place (stack_reaches (Some stack) (arguments_of 0 arguments.now))) }
{
    for number in 0..arguments.len() {
        push_argument(
            accesses,
            listing,
            slots,
            row,
            place,
            stack,
            number as u32,
            &arguments[number],
        )?;
    }
    Ok(())
}

// The accesses of a call's arguments, by a prototype.
fn push_passed(
    accesses: &mut Vec<FrameAccess>,
    listing: &Listing,
    slots: &Slots,
    row: &[Option<u64>],
    place: Place,
    proto: u32,
) -> Result<(), Memory>
    requires read { IsWellFormed listing.now }
    requires slots { AreSlots listing.now slots.now }
    requires row { IsRow slots.now row.now }
    ensures { OnOk result (accesses.new.items ≡ accesses.old.items
        ++ accesses_of listing.now slots.now row.now place
        (stack_reaches listing.now.stack (arguments_of 0 (proto_at listing.now proto).args))) }
{
    match listing.stack {
        Some(stack) => push_arguments(
            accesses,
            listing,
            slots,
            row,
            place,
            stack,
            arguments(listing, proto),
        ),
        None => Ok(()),
    }
}

// The accesses of what an op reaches.
fn push_op(
    accesses: &mut Vec<FrameAccess>,
    listing: &Listing,
    slots: &Slots,
    row: &[Option<u64>],
    place: Place,
    op: &Op,
) -> Result<(), Memory>
    requires read { IsWellFormed listing.now }
    requires slots { AreSlots listing.now slots.now }
    requires row { IsRow slots.now row.now }
    ensures { OnOk result (accesses.new.items ≡ accesses.old.items
        ++ accesses_of listing.now slots.now row.now place (reaches listing.now op.now)) }
{
    match (&op.code, op.inputs.as_slice()) {
        (Opcode::Load, _) => push_memory(accesses, listing, slots, row, place, op, op.size_out()),
        (Opcode::Store, _) => push_memory(
            accesses,
            listing,
            slots,
            row,
            place,
            op,
            op.input(2).size,
        ),
        (Opcode::Call, [to, ..]) => push_passed(
            accesses,
            listing,
            slots,
            row,
            place,
            proto_called(listing, to.offset),
        ),
        (Opcode::CallInd, [_, ..]) => push_passed(
            accesses,
            listing,
            slots,
            row,
            place,
            listing.func.proto,
        ),
        _ => Ok(()),
    }
}

fn push_place(
    accesses: &mut Vec<FrameAccess>,
    listing: &Listing,
    slots: &Slots,
    row: &[Option<u64>],
    place: Place,
) -> Result<(), Memory>
    requires read { IsWellFormed listing.now }
    requires slots { AreSlots listing.now slots.now }
    requires row { IsRow slots.now row.now }
    ensures { OnOk result (accesses.new.items ≡ accesses.old.items ++ accesses_at listing.now slots.now row.now place) }
{
    match op_at(listing, place) {
        Some(op) => push_op(accesses, listing, slots, row, place, op),
        None => Ok(()),
    }
}

// The accesses of places that follow one another, with the row before the first one.
fn push_places(
    alloc: Global,
    accesses: &mut Vec<FrameAccess>,
    listing: &Listing,
    slots: &Slots,
    first: &Row,
    places: &[Place],
) -> Result<(), Memory>
    requires read { IsWellFormed listing.now }
    requires slots { AreSlots listing.now slots.now }
    requires row { IsRow slots.now first.now }
    ensures { OnOk result (accesses.new.items ≡ accesses.old.items
        ++ along (accesses_at listing.now slots.now) listing.now slots.now first.now places.now) }
{
    let mut row = Items::from_slice(alloc, first.as_slice())?;
    for place in places {
        push_place(accesses, listing, slots, row.as_slice(), *place)?;
        over(listing, slots, &mut row, *place);
    }
    Ok(())
}

fn push_block(
    alloc: Global,
    accesses: &mut Vec<FrameAccess>,
    listing: &Listing,
    slots: &Slots,
    row: &Option<Row>,
    places: &[Place],
) -> Result<(), Memory>
    requires read { IsWellFormed listing.now }
    requires slots { AreSlots listing.now slots.now }
    requires row { IfSome row.now (IsRow slots.now) }
    ensures { OnOk result (accesses.new.items ≡ accesses.old.items
        ++ along_from (accesses_at listing.now slots.now) listing.now slots.now row.now places.now) }
{
    match row {
        Some(row) => push_places(alloc, accesses, listing, slots, row, places),
        None => Ok(()),
    }
}

// The accesses of the frame, as a walk over the blocks finds them.
fn walk(
    alloc: Global,
    listing: &Listing,
    known: &Known,
    blocks: &[Block],
) -> Result<Vec<FrameAccess>, Memory>
    requires read { IsWellFormed listing.now }
    requires known { AreKnown listing.now blocks.now known.now }
    ensures { IfOk result (λ found. found.items ≡ accesses_in listing.now known.now.slots known.now.rows.items blocks.now) }
{
    let mut accesses = Vec::new(alloc);
    for number in 0..blocks.len() {
        push_block(
            alloc,
            &mut accesses,
            listing,
            &known.slots,
            &known.rows[number],
            blocks[number].places.as_slice(),
        )?;
    }
    Ok(accesses)
}

/// All accesses of the frame, by rising place, and at one place by number.
pub fn accesses_found(
    alloc: Global,
    listing: &Listing,
    known: &Known,
    blocks: &[Block],
) -> Result<Vec<FrameAccess>, Memory>
    requires read { IsWellFormed listing.now }
    requires known { AreKnown listing.now blocks.now known.now }
    requires flow { IsFlow listing.now [] blocks.now }
    ensures { IfOk result (λ found. Lists (IsFrameAccess listing.now [] []) IsAccessBefore found.items) }
{
    let found = walk(alloc, listing, known, blocks)?;
    Ok(found)
}
