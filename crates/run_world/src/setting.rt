//! What runs of a listing look up again and again.

ghost use Rattle.std.specs.Prelude.{◌≡◌, ◌≤◌, ◌+◌, ◌<◌, ◌^◌, length, IfOk, OnOk};
ghost use Rattle.std.specs.List.{AllByRecursion};
ghost use Rattle.pcode_model.specs.Spaces.{fixed_in};
ghost use Rattle.pcode_model.specs.WellFormed.{IsWellFormed};
ghost use Rattle.run_world.specs.Maps.{at, over};
ghost use Rattle.run_world.specs.Setting.{IsSetting};

use crate::byte_map::ByteMap;
use bits_core::Memory;
use pcode_model::ranges::number_of;
use pcode_model::{Fixed, Listing, SpaceKind};
use std::alloc::Global;

#[derive(Drop)]
pub struct Setting {
    /// The read-only bytes.
    pub fixed: ByteMap,
    /// The number of the first ram space.
    pub first_ram: u8,
    /// The number of the register space.
    pub registers: u8,
    /// The number of the unique space.
    pub uniques: u8,
}

// Puts the bytes of a read-only range in.
fn put_fixed(map: &mut ByteMap, fixed: &Fixed) -> Result<(), Memory>
    requires { fixed.now.offset + length fixed.now.bytes ≤ 2 ^ 64 }
    ensures { OnOk result
        (at map.new ≡ over fixed.now.space fixed.now.offset (length fixed.now.bytes) fixed.now.bytes (at map.old)) }
{
    let bytes = fixed.bytes.as_slice();
    for i in 0..bytes.len() {
        map.put(fixed.space, fixed.offset + i as u64, bytes[i])?;
    }
    Ok(())
}

// The read-only bytes; of two ranges that share a byte the first one counts.
pub(crate) fn fixed_bytes(alloc: Global, fixed: &[Fixed]) -> Result<ByteMap, Memory>
    requires { AllByRecursion (λ f. f.offset + length f.bytes ≤ 2 ^ 64) fixed.now }
    ensures { IfOk result (λ map. at map ≡ fixed_in fixed.now) }
{
    let mut map = ByteMap::new(alloc);
    let mut i = fixed.len();
    while i > 0 {
        i -= 1;
        put_fixed(&mut map, &fixed[i])?;
    }
    Ok(map)
}

impl Setting {
    pub fn new(alloc: Global, listing: &Listing) -> Result<Setting, Memory>
        requires { IsWellFormed listing.now }
        ensures { IfOk result (IsSetting listing.now) }
    {
        let spaces = listing.spaces.as_slice();
        Ok(Setting {
            fixed: fixed_bytes(alloc, listing.fixed.as_slice())?,
            first_ram: number_of(SpaceKind::Ram, spaces) as u8,
            registers: number_of(SpaceKind::Register, spaces) as u8,
            uniques: number_of(SpaceKind::Unique, spaces) as u8,
        })
    }
}
