//! The accesses of frame variables, and the ranges that stand for bytes of the frame.

ghost use Rattle.std.specs.Prelude.{◌≡◌, ◌<◌, ◌≤◌, ◌^◌, IfOk, OnOk};
ghost use Rattle.pcode_model.specs.Frame.{own_in, wrapped};
ghost use Rattle.range_words.specs.Own.{centred as centred_in, frame_range as range_of, stack_size as stack_size_of};
ghost use Rattle.op_code.specs.FrameTable.{HasFrameRanges, own_at, own_of};

use crate::memory::offset_bytes;
use bits_core::Memory;
use pcode_model::ranges::number_of;
use pcode_model::{Frame, Listing, Place, SpaceKind, Varnode};
use std::alloc::Global;
use std::collections::BTreeMap;

/// Where the accesses of frame variables lie.
#[derive(Drop)]
pub struct FrameTable {
    /// The offset from the stack pointer's entry word, by the place of the op and the number of its access.
    offsets: BTreeMap<(u64, (u32, u64)), u64>,
}

/// The accesses of frame variables of the op at a place.
#[derive(Drop)]
pub struct OwnAccesses<'a> {
    table: &'a FrameTable,
    place: Place,
}

/// How many bytes the stack has: those of the first ram space.
fn stack_size(listing: &Listing) -> u128
    requires { stack_size_of listing.now ≤ 2 ^ 64 }
    ensures size { result ≡ stack_size_of listing.now }
    ensures some { 0 < result }
{
    let ram = number_of(SpaceKind::Ram, listing.spaces.as_slice()) as u64;
    let bytes = offset_bytes(listing, ram);
    1u128 << (8 * u32::from(bytes))
}

/// An offset from the stack pointer's entry word, as one of the stack's, which go on at 0 past the last one.
pub fn stack_offset(listing: &Listing, offset: i32) -> u64
    requires { stack_size_of listing.now ≤ 2 ^ 64 }
    ensures { result ≡ wrapped (stack_size_of listing.now) offset }
{
    let size = stack_size(listing) as i128;
    i128::from(offset).rem_euclid(size) as u64
}

/// An offset counted from half the space below the entry word.
fn centred(size: u128, offset: u64) -> u64
    requires { size ≤ 2 ^ 64 }
    ensures { result ≡ centred_in size offset }
{
    let half = (size / 2) as u64;
    if offset < half {
        offset + half
    } else {
        offset - half
    }
}

/// The range that stands for so many bytes of the frame, from an offset on.
pub fn frame_range(listing: &Listing, offset: u64, size: u32) -> Varnode
    requires { HasFrameRanges listing.now }
    ensures { result ≡ range_of listing.now offset size }
{
    let space = number_of(SpaceKind::Ram, listing.spaces.as_slice()) as u8;
    Varnode {
        space,
        offset: centred(stack_size(listing), offset),
        size,
    }
}

impl FrameTable {
    /// Where a place has two accesses of one number, the first one counts.
    pub fn new(alloc: Global, listing: &Listing, frame: &Frame) -> Result<FrameTable, Memory>
        requires { stack_size_of listing.now ≤ 2 ^ 64 }
        ensures { IfOk result (λ t. own_at t ≡ own_in (stack_size_of listing.now) frame.now.accesses) }
    {
        let accesses = frame.accesses.as_slice();
        let mut offsets = BTreeMap::new(alloc);
        for at in (0..accesses.len()).rev() {
            let access = accesses[at];
            let key = (
                access.place.address,
                (access.place.index, u64::from(access.argument)),
            );
            offsets.insert(key, stack_offset(listing, access.offset))?;
        }
        Ok(FrameTable { offsets })
    }

    /// Those of the op at a place.
    pub fn at(&self, place: Place) -> OwnAccesses<'_>
        ensures { own_of result ≡ own_at self.now place }
    {
        OwnAccesses { table: self, place }
    }
}

impl OwnAccesses<'_> {
    /// The offset of the access of a number, where it is one of a frame variable.
    pub(crate) fn offset(&self, number: u64) -> Option<u64>
        ensures { result ≡ own_of self.now number }
    {
        let key = (self.place.address, (self.place.index, number));
        self.table.offsets.get(&key).copied()
    }
}
