//! The ranges that may hold an address of the stack.

ghost use Rattle.std.specs.Prelude.{◌≡◌, ◌++◌, ◌<◌, ◌^◌, length, slice_index, IfOk, OnOk, MatchOption};
ghost use Rattle.std.specs.List.Sorted.{IsStrictlyIncreasing};
ghost use Rattle.pcode_model.specs.WellFormed.{IsWellFormed};
ghost use Rattle.frame_facts.specs.Accesses.{stack_width};
ghost use Rattle.frame_known.specs.Slots.{AreSlots, IsLower, IsNoSlot, IsSlot, all_keys, can_hold, code_keys, is_local, key, key_in, makes_address, op_keys, ops_keys, range_of};

use crate::offsets::offsets;
use bits_core::{Binary, Memory, Unary};
use pcode_model::ranges::{leaves, number_of};
use pcode_model::{Instruction, Listing, Op, Opcode, SpaceKind, Varnode};
use std::alloc::Global;

/// How many offsets a space of 8 bytes has.
const SPACE: u128 = 1 << 64;

/// The slots of a listing.
#[derive(Drop)]
pub struct Slots {
    /// Bytes of each range.
    pub width: u32,
    /// How many offsets there are; sums wrap there.
    pub offsets: u128,
    /// A range's space and offset as one number, rising.
    pub keys: Vec<u128>,
}

/// A range's space and offset as one number.
pub(crate) fn key(range: Varnode) -> u128
    ensures value { result ≡ key range }
    ensures bound { result < 2 ^ 72 }
{
    u128::from(range.space) * SPACE + u128::from(range.offset)
}

fn is_local(listing: &Listing, space: u8) -> bool
    ensures { result ≡ is_local listing.now space }
{
    let spaces = listing.spaces.as_slice();
    let space = usize::from(space);
    space == number_of(SpaceKind::Register, spaces) || space == number_of(SpaceKind::Unique, spaces)
}

fn can_hold(listing: &Listing, width: u32, range: Varnode) -> bool
    ensures { result ≡ can_hold listing.now width range }
{
    range.size == width
        && is_local(listing, range.space)
        && !leaves(
            listing.spaces.as_slice(),
            u64::from(range.space),
            range.offset,
            range.size,
        )
}

fn makes_address(code: &Opcode) -> bool
    ensures { result ≡ makes_address code.now }
{
    match code {
        Opcode::Unary(Unary::Copy) | Opcode::Binary(Binary::Add | Binary::Subtract) => true,
        _ => false,
    }
}

fn push_key(
    keys: &mut Vec<u128>,
    listing: &Listing,
    width: u32,
    out: Option<Varnode>,
) -> Result<(), Memory>
    ensures { OnOk result (keys.new.items ≡ keys.old.items ++ key_in listing.now width out) }
{
    if let Some(range) = out {
        if can_hold(listing, width, range) {
            keys.push(key(range))?;
        }
    }
    Ok(())
}

fn push_op(keys: &mut Vec<u128>, listing: &Listing, width: u32, op: &Op) -> Result<(), Memory>
    ensures { OnOk result (keys.new.items ≡ keys.old.items ++ op_keys listing.now width op.now) }
{
    if makes_address(&op.code) {
        push_key(keys, listing, width, op.out)
    } else {
        Ok(())
    }
}

fn push_ops(keys: &mut Vec<u128>, listing: &Listing, width: u32, ops: &[Op]) -> Result<(), Memory>
    ensures { OnOk result (keys.new.items ≡ keys.old.items ++ ops_keys listing.now width ops.now) }
{
    for op in ops {
        push_op(keys, listing, width, op)?;
    }
    Ok(())
}

fn push_code(
    keys: &mut Vec<u128>,
    listing: &Listing,
    width: u32,
    code: &[Instruction],
) -> Result<(), Memory>
    ensures { OnOk result (keys.new.items ≡ keys.old.items ++ code_keys listing.now width code.now) }
{
    for instruction in code {
        push_ops(keys, listing, width, instruction.ops.as_slice())?;
    }
    Ok(())
}

fn collect(alloc: Global, listing: &Listing) -> Result<Vec<u128>, Memory>
    ensures { IfOk result (λ keys. keys.items ≡ all_keys listing.now listing.now.stack) }
{
    let mut keys = Vec::new(alloc);
    if let Some(stack) = listing.stack {
        keys.push(key(stack))?;
        push_code(&mut keys, listing, stack.size, listing.code.as_slice())?;
    }
    Ok(keys)
}

fn width(listing: &Listing) -> u32
    ensures { result ≡ stack_width listing.now }
{
    match listing.stack {
        Some(stack) => stack.size,
        None => 0,
    }
}

/// The slots of a listing.
pub(crate) fn slots_of(alloc: Global, listing: &Listing) -> Result<Slots, Memory>
    requires { IsWellFormed listing.now }
    ensures { IfOk result (λ slots. AreSlots listing.now slots) }
{
    let mut keys = collect(alloc, listing)?;
    keys.sort_unstable();
    keys.dedup();
    Ok(Slots {
        width: width(listing),
        offsets: offsets(listing),
        keys,
    })
}

impl Slots {
    /// How many slots there are.
    pub fn len(&self) -> usize
        ensures { result ≡ length self.now.keys.items }
    {
        self.keys.len()
    }

    /// The range of a slot.
    pub fn range(&self, slot: usize) -> Varnode
        requires inside { slot < length self.now.keys.items }
        requires low { slice_index self.now.keys.items slot < 2 ^ 72 }
        ensures { result ≡ range_of self.now.width (slice_index self.now.keys.items slot) }
    {
        let key = self.keys[slot];
        Varnode {
            space: (key / SPACE) as u8,
            offset: (key % SPACE) as u64,
            size: self.width,
        }
    }

    /// How many slots stand below a number.
    pub(crate) fn lower(&self, number: u128) -> usize
        requires { IsStrictlyIncreasing self.now.keys.items }
        ensures { IsLower self.now.keys.items number result }
    {
        match self.keys.binary_search(&number) {
            Ok(slot) => slot,
            Err(slot) => slot,
        }
    }

    /// The slot of a range.
    pub fn find(&self, range: Varnode) -> Option<usize>
        requires { IsStrictlyIncreasing self.now.keys.items }
        ensures { MatchOption result (IsNoSlot self.now range) (λ slot. IsSlot self.now range slot) }
    {
        if range.size != self.width {
            return None;
        }
        match self.keys.binary_search(&key(range)) {
            Ok(slot) => Some(slot),
            Err(_) => None,
        }
    }
}
