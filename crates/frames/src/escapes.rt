//! The offsets that escape.

ghost use Rattle.std.specs.Prelude.{◌≡◌, ◌++◌, ◌∷◌, [], None, IfOk, IfSome, OnOk, ◌<ℤ◌};
ghost use Rattle.pcode_model.specs.Atoms.{one_range, ranges_read};
ghost use Rattle.pcode_model.specs.Flow.{IsFlow};
ghost use Rattle.pcode_model.specs.Step.{call_operands, indirect_operands, operands, proto_at, proto_of};
ghost use Rattle.pcode_model.specs.declared.opcode.Opcode.TheVariants as O;
ghost use Rattle.pcode_model.specs.WellFormed.{IsWellFormed};
ghost use Rattle.frame_facts.specs.Escapes.{has_constant, has_low_mask, is_constant, is_low_mask, is_of_memory, told, unless_harmless};
ghost use Rattle.frame_facts.specs.Listed.{IsEscape, Lists};
ghost use Rattle.frame_known.specs.Rows.{IsRow, offset_of};
ghost use Rattle.frame_known.specs.Slots.{AreSlots};
ghost use Rattle.frame_known.specs.Known.{AreKnown};
ghost use Rattle.frames.specs.Walk.{along, along_from, escapes_found as escapes_in, signed_of, told_at};
ghost use Rattle.stackvars.specs.Accesses.{passed, passed_in};

use crate::accesses::is_of_memory;
use crate::offsets::signed;
use bits_core::{Binary, Memory, Unary};
use frame_known::{Known, Row, Slots, offset, over};
use instructions::{arguments, op_at, proto_called, result_range};
use pcode_model::{Block, Listing, Op, Opcode, Place, SpaceKind, Storage, Varnode};
use sqlite_items::Items;
use std::alloc::Global;

// The offset that is known of a range.
fn push_range(
    escapes: &mut Vec<i64>,
    listing: &Listing,
    slots: &Slots,
    row: &[Option<u64>],
    range: Varnode,
) -> Result<(), Memory>
    requires read { IsWellFormed listing.now }
    requires slots { AreSlots listing.now slots.now }
    requires row { IsRow slots.now row.now }
    ensures { OnOk result (escapes.new.items ≡ escapes.old.items
        ++ signed_of listing.now slots.now row.now (range ∷ [])) }
{
    if let Some(known) = offset(slots, row, range) {
        escapes.push(signed(listing, known))?;
    }
    Ok(())
}

fn push_optional(
    escapes: &mut Vec<i64>,
    listing: &Listing,
    slots: &Slots,
    row: &[Option<u64>],
    range: Option<Varnode>,
) -> Result<(), Memory>
    requires read { IsWellFormed listing.now }
    requires slots { AreSlots listing.now slots.now }
    requires row { IsRow slots.now row.now }
    ensures { OnOk result (escapes.new.items ≡ escapes.old.items
        ++ signed_of listing.now slots.now row.now (one_range range)) }
{
    match range {
        Some(range) => push_range(escapes, listing, slots, row, range),
        None => Ok(()),
    }
}

#[tactic(auto, using(crate::proofs::Told::signed_of_both))]
fn push_ranges(
    escapes: &mut Vec<i64>,
    listing: &Listing,
    slots: &Slots,
    row: &[Option<u64>],
    ranges: &[Varnode],
) -> Result<(), Memory>
    requires read { IsWellFormed listing.now }
    requires slots { AreSlots listing.now slots.now }
    requires row { IsRow slots.now row.now }
    ensures { OnOk result (escapes.new.items ≡ escapes.old.items
        ++ signed_of listing.now slots.now row.now ranges.now) }
{
    for range in ranges {
        push_range(escapes, listing, slots, row, *range)?;
    }
    Ok(())
}

fn is_constant(listing: &Listing, range: Varnode) -> bool
    ensures { result ≡ is_constant listing.now range }
{
    SpaceKind::Constant.same(listing.space_kind(range.space))
}

fn has_constant(listing: &Listing, op: &Op) -> bool
    ensures { result ≡ has_constant listing.now op.now.inputs }
{
    is_constant(listing, op.input(0)) || is_constant(listing, op.input(1))
}

// Whether a range is a constant that leaves of an address at most its low byte.
fn is_low_mask(listing: &Listing, range: Varnode) -> bool
    ensures { result ≡ is_low_mask listing.now range }
{
    is_constant(listing, range) && range.offset <= 0xff
}

fn has_low_mask(listing: &Listing, op: &Op) -> bool
    ensures { result ≡ has_low_mask listing.now op.now.inputs }
{
    is_low_mask(listing, op.input(0)) || is_low_mask(listing, op.input(1))
}

// The address of a LOAD or STORE, unless it goes to the first ram space.
fn push_address(
    escapes: &mut Vec<i64>,
    listing: &Listing,
    slots: &Slots,
    row: &[Option<u64>],
    op: &Op,
) -> Result<(), Memory>
    requires read { IsWellFormed listing.now }
    requires slots { AreSlots listing.now slots.now }
    requires row { IsRow slots.now row.now }
    ensures { OnOk result (escapes.new.items ≡ escapes.old.items
        ++ signed_of listing.now slots.now row.now (told listing.now O.Load op.now.inputs)) }
{
    if is_of_memory(listing, op) {
        Ok(())
    } else {
        push_range(escapes, listing, slots, row, op.input(1))
    }
}

// A STORE's address, and the word that it stores.
#[tactic(auto, using(crate::proofs::Told::signed_of_both))]
fn push_stored(
    escapes: &mut Vec<i64>,
    listing: &Listing,
    slots: &Slots,
    row: &[Option<u64>],
    op: &Op,
) -> Result<(), Memory>
    requires read { IsWellFormed listing.now }
    requires slots { AreSlots listing.now slots.now }
    requires row { IsRow slots.now row.now }
    ensures { OnOk result (escapes.new.items ≡ escapes.old.items
        ++ signed_of listing.now slots.now row.now (told listing.now O.Store op.now.inputs)) }
{
    push_address(escapes, listing, slots, row, op)?;
    push_range(escapes, listing, slots, row, op.input(2))
}

// A call's argument, if it is in a register.
fn push_argument(
    escapes: &mut Vec<i64>,
    listing: &Listing,
    slots: &Slots,
    row: &[Option<u64>],
    argument: &Storage,
) -> Result<(), Memory>
    requires read { IsWellFormed listing.now }
    requires slots { AreSlots listing.now slots.now }
    requires row { IsRow slots.now row.now }
    ensures { OnOk result (escapes.new.items ≡ escapes.old.items
        ++ signed_of listing.now slots.now row.now (passed_in argument.now)) }
{
    match argument {
        Storage::At(range) => push_range(escapes, listing, slots, row, *range),
        Storage::Stack { .. } => Ok(()),
    }
}

#[tactic(auto, using(crate::proofs::Told::signed_of_both))]
fn push_arguments(
    escapes: &mut Vec<i64>,
    listing: &Listing,
    slots: &Slots,
    row: &[Option<u64>],
    arguments: &[Storage],
) -> Result<(), Memory>
    requires read { IsWellFormed listing.now }
    requires slots { AreSlots listing.now slots.now }
    requires row { IsRow slots.now row.now }
    ensures { OnOk result (escapes.new.items ≡ escapes.old.items
        ++ signed_of listing.now slots.now row.now (passed arguments.now)) }
{
    for argument in arguments {
        push_argument(escapes, listing, slots, row, argument)?;
    }
    Ok(())
}

// What a call of a prototype reads in registers.
fn push_passed(
    escapes: &mut Vec<i64>,
    listing: &Listing,
    slots: &Slots,
    row: &[Option<u64>],
    proto: u32,
) -> Result<(), Memory>
    requires read { IsWellFormed listing.now }
    requires slots { AreSlots listing.now slots.now }
    requires row { IsRow slots.now row.now }
    ensures { OnOk result (escapes.new.items ≡ escapes.old.items
        ++ signed_of listing.now slots.now row.now (passed (proto_at listing.now proto).args)) }
{
    push_arguments(escapes, listing, slots, row, arguments(listing, proto))
}

#[tactic(auto, using(stackvars::proofs::Passed::reads_passed))]
fn push_call(
    escapes: &mut Vec<i64>,
    listing: &Listing,
    slots: &Slots,
    row: &[Option<u64>],
    inputs: &[Varnode],
) -> Result<(), Memory>
    requires read { IsWellFormed listing.now }
    requires slots { AreSlots listing.now slots.now }
    requires row { IsRow slots.now row.now }
    ensures { OnOk result (escapes.new.items ≡ escapes.old.items
        ++ signed_of listing.now slots.now row.now (ranges_read (call_operands listing.now inputs.now))) }
{
    match inputs {
        [] => Ok(()),
        [to, ..] => push_passed(
            escapes,
            listing,
            slots,
            row,
            proto_called(listing, to.offset),
        ),
    }
}

// What a call through a range reads: the range, and its arguments.
#[tactic(auto, using(crate::proofs::Told::signed_of_both))]
fn push_target(
    escapes: &mut Vec<i64>,
    listing: &Listing,
    slots: &Slots,
    row: &[Option<u64>],
    to: Varnode,
) -> Result<(), Memory>
    requires read { IsWellFormed listing.now }
    requires slots { AreSlots listing.now slots.now }
    requires row { IsRow slots.now row.now }
    ensures { OnOk result (escapes.new.items ≡ escapes.old.items
        ++ signed_of listing.now slots.now row.now (to ∷ passed (proto_of listing.now None).args)) }
{
    push_range(escapes, listing, slots, row, to)?;
    push_passed(escapes, listing, slots, row, listing.func.proto)
}

#[tactic(auto, using(stackvars::proofs::Passed::reads_passed))]
fn push_indirect_call(
    escapes: &mut Vec<i64>,
    listing: &Listing,
    slots: &Slots,
    row: &[Option<u64>],
    inputs: &[Varnode],
) -> Result<(), Memory>
    requires read { IsWellFormed listing.now }
    requires slots { AreSlots listing.now slots.now }
    requires row { IsRow slots.now row.now }
    ensures { OnOk result (escapes.new.items ≡ escapes.old.items
        ++ signed_of listing.now slots.now row.now (ranges_read (indirect_operands listing.now inputs.now))) }
{
    match inputs {
        [] => Ok(()),
        [to, ..] => push_target(escapes, listing, slots, row, *to),
    }
}

// All that an op reads.
#[tactic(auto, using(stackvars::proofs::Ops::read_all, stackvars::proofs::Ops::read_past))]
fn push_operands(
    escapes: &mut Vec<i64>,
    listing: &Listing,
    slots: &Slots,
    row: &[Option<u64>],
    op: &Op,
) -> Result<(), Memory>
    requires read { IsWellFormed listing.now }
    requires slots { AreSlots listing.now slots.now }
    requires row { IsRow slots.now row.now }
    ensures { OnOk result (escapes.new.items ≡ escapes.old.items
        ++ signed_of listing.now slots.now row.now (ranges_read (operands listing.now op.now.code op.now.inputs))) }
{
    let inputs = op.inputs.as_slice();
    match &op.code {
        Opcode::Unary(_)
        | Opcode::Binary(_)
        | Opcode::Divide(_)
        | Opcode::BranchInd
        | Opcode::Return => push_ranges(escapes, listing, slots, row, inputs),
        Opcode::Load | Opcode::Store | Opcode::CBranch | Opcode::CallOther => push_ranges(
            escapes,
            listing,
            slots,
            row,
            op.past_first(),
        ),
        Opcode::Call => push_call(escapes, listing, slots, row, inputs),
        Opcode::CallInd => push_indirect_call(escapes, listing, slots, row, inputs),
        _ => Ok(()),
    }
}

// Whether an op with two inputs reads them harmlessly.
#[tactic(auto, using(stackvars::proofs::Ops::read_all))]
fn is_harmless(listing: &Listing, code: Binary, op: &Op) -> bool
    ensures { told listing.now (O.Binary code) op.now.inputs ≡ unless_harmless result op.now.inputs }
{
    match code {
        Binary::Add | Binary::Subtract => has_constant(listing, op),
        Binary::And => has_low_mask(listing, op),
        Binary::Equal
        | Binary::NotEqual
        | Binary::Less
        | Binary::LessEqual
        | Binary::SignedLess
        | Binary::SignedLessEqual
        | Binary::Carry
        | Binary::SignedCarry
        | Binary::SignedBorrow => true,
        _ => false,
    }
}

// What an op with two inputs reads so that it escapes.
fn push_binary(
    escapes: &mut Vec<i64>,
    listing: &Listing,
    slots: &Slots,
    row: &[Option<u64>],
    code: Binary,
    op: &Op,
) -> Result<(), Memory>
    requires read { IsWellFormed listing.now }
    requires slots { AreSlots listing.now slots.now }
    requires row { IsRow slots.now row.now }
    ensures { OnOk result (escapes.new.items ≡ escapes.old.items
        ++ signed_of listing.now slots.now row.now (told listing.now (O.Binary code) op.now.inputs)) }
{
    if is_harmless(listing, code, op) {
        Ok(())
    } else {
        push_ranges(escapes, listing, slots, row, op.inputs.as_slice())
    }
}

// What an op reads so that it escapes.
fn push_op(
    escapes: &mut Vec<i64>,
    listing: &Listing,
    slots: &Slots,
    row: &[Option<u64>],
    op: &Op,
) -> Result<(), Memory>
    requires read { IsWellFormed listing.now }
    requires slots { AreSlots listing.now slots.now }
    requires row { IsRow slots.now row.now }
    ensures { OnOk result (escapes.new.items ≡ escapes.old.items
        ++ signed_of listing.now slots.now row.now (told listing.now op.now.code op.now.inputs)) }
{
    match &op.code {
        Opcode::Unary(Unary::Copy | Unary::CountOnes | Unary::CountLeadingZeros) => Ok(()),
        Opcode::Binary(code) => push_binary(escapes, listing, slots, row, *code, op),
        Opcode::Load => push_address(escapes, listing, slots, row, op),
        Opcode::Store => push_stored(escapes, listing, slots, row, op),
        Opcode::Return => push_optional(escapes, listing, slots, row, result_range(listing)),
        _ => push_operands(escapes, listing, slots, row, op),
    }
}

fn push_place(
    escapes: &mut Vec<i64>,
    listing: &Listing,
    slots: &Slots,
    row: &[Option<u64>],
    place: Place,
) -> Result<(), Memory>
    requires read { IsWellFormed listing.now }
    requires slots { AreSlots listing.now slots.now }
    requires row { IsRow slots.now row.now }
    ensures { OnOk result (escapes.new.items ≡ escapes.old.items ++ told_at listing.now slots.now row.now place) }
{
    match op_at(listing, place) {
        Some(op) => push_op(escapes, listing, slots, row, op),
        None => Ok(()),
    }
}

// What escapes at places that follow one another, with the row before the first one.
fn push_places(
    alloc: Global,
    escapes: &mut Vec<i64>,
    listing: &Listing,
    slots: &Slots,
    first: &Row,
    places: &[Place],
) -> Result<(), Memory>
    requires read { IsWellFormed listing.now }
    requires slots { AreSlots listing.now slots.now }
    requires row { IsRow slots.now first.now }
    ensures { OnOk result (escapes.new.items ≡ escapes.old.items
        ++ along (told_at listing.now slots.now) listing.now slots.now first.now places.now) }
{
    let mut row = Items::from_slice(alloc, first.as_slice())?;
    for place in places {
        push_place(escapes, listing, slots, row.as_slice(), *place)?;
        over(listing, slots, &mut row, *place);
    }
    Ok(())
}

fn push_block(
    alloc: Global,
    escapes: &mut Vec<i64>,
    listing: &Listing,
    slots: &Slots,
    row: &Option<Row>,
    places: &[Place],
) -> Result<(), Memory>
    requires read { IsWellFormed listing.now }
    requires slots { AreSlots listing.now slots.now }
    requires row { IfSome row.now (IsRow slots.now) }
    ensures { OnOk result (escapes.new.items ≡ escapes.old.items
        ++ along_from (told_at listing.now slots.now) listing.now slots.now row.now places.now) }
{
    match row {
        Some(row) => push_places(alloc, escapes, listing, slots, row, places),
        None => Ok(()),
    }
}

// The offsets that escape, as a walk over the blocks finds them.
fn walk(
    alloc: Global,
    listing: &Listing,
    known: &Known,
    blocks: &[Block],
) -> Result<Vec<i64>, Memory>
    requires read { IsWellFormed listing.now }
    requires known { AreKnown listing.now blocks.now known.now }
    ensures { IfOk result (λ found. found.items ≡ escapes_in listing.now known.now.slots known.now.rows.items blocks.now) }
{
    let mut escapes = Vec::new(alloc);
    for number in 0..blocks.len() {
        push_block(
            alloc,
            &mut escapes,
            listing,
            &known.slots,
            &known.rows[number],
            blocks[number].places.as_slice(),
        )?;
    }
    Ok(escapes)
}

/// All offsets that escape, each once and rising. `Memory` where memory runs out.
pub fn escapes_found(
    alloc: Global,
    listing: &Listing,
    known: &Known,
    blocks: &[Block],
) -> Result<Vec<i64>, Memory>
    requires read { IsWellFormed listing.now }
    requires known { AreKnown listing.now blocks.now known.now }
    requires flow { IsFlow listing.now [] blocks.now }
    ensures { IfOk result (λ found. Lists (IsEscape listing.now []) ◌<ℤ◌ found.items) }
{
    let mut found = walk(alloc, listing, known, blocks)?;
    found.sort_unstable();
    found.dedup();
    Ok(found)
}
