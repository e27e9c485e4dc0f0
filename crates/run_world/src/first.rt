//! The bytes that a run begins with, and those that an answer leaves.

ghost use Rattle.std.specs.Prelude.{◌≡◌, None, IfOk, OnOk};
ghost use Rattle.pcode_model.specs.WellFormed.{IsWellFormed};
ghost use Rattle.run_world.specs.Maps.{at, at_offset, bytes_of};
ghost use Rattle.run_world.specs.Meaning.{first_bytes, with_bytes, with_offsets};

use crate::byte_map::ByteMap;
use crate::entry::Byte;
use crate::offset_map::OffsetMap;
use crate::setting::fixed_bytes;
use bits_core::Memory;
use pcode_model::Listing;
use std::alloc::Global;

impl OffsetMap {
    /// The bytes of a list by their offsets; a later one of an offset overrides an earlier one.
    pub fn of_bytes(alloc: Global, bytes: &[Byte]) -> Result<OffsetMap, Memory>
        ensures { IfOk result (λ map. at_offset map ≡ with_offsets bytes.now (λ o. None)) }
    {
        let mut map = OffsetMap::new(alloc);
        for b in bytes {
            map.put(b.offset, b.value)?;
        }
        Ok(map)
    }
}

impl ByteMap {
    // Puts the bytes of a list in, in order.
    fn put_all(&mut self, bytes: &[Byte]) -> Result<(), Memory>
        ensures { OnOk result (at self.new ≡ with_bytes bytes.now (at self.old)) }
    {
        for b in bytes {
            self.put(b.space, b.offset, b.value)?;
        }
        Ok(())
    }

    /// The bytes of a list by space and offset, where a later one of a byte overrides an earlier one, and the read-only
    /// bytes of the listing besides.
    pub fn first(alloc: Global, listing: &Listing, bytes: &[Byte]) -> Result<ByteMap, Memory>
        requires { IsWellFormed listing.now }
        ensures { IfOk result (λ map. bytes_of map ≡ first_bytes listing.now bytes.now) }
    {
        let mut map = fixed_bytes(alloc, listing.fixed.as_slice())?;
        map.put_all(bytes)?;
        Ok(map)
    }
}
