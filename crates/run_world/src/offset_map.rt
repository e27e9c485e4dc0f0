//! Bytes by offset.

ghost use Rattle.std.specs.Prelude.{◌≡◌, ℕ, None, Some, OnOk, OnErr};
ghost use Rattle.pcode_model.specs.Spaces.{put};
ghost use Rattle.run_world.specs.Maps.{at_offset};

use bits_core::Memory;
use std::alloc::Global;
use std::collections::BTreeMap;

/// Bytes at some offsets. Its memory grows with the number of these.
#[derive(Drop)]
pub struct OffsetMap {
    bytes: BTreeMap<u64, u8>,
}

impl OffsetMap {
    pub fn new(alloc: Global) -> OffsetMap
        ensures { at_offset result ≡ λ o. None }
    {
        OffsetMap {
            bytes: BTreeMap::new(alloc),
        }
    }

    /// The byte at an offset, where there is one.
    pub fn get(&self, offset: u64) -> Option<u8>
        ensures { result ≡ at_offset self.now offset }
    {
        self.bytes.get(&offset).copied()
    }

    pub fn put(&mut self, offset: u64, value: u8) -> Result<(), Memory>
        ensures { OnOk result (at_offset self.new ≡ put (at_offset self.old) offset (Some value)) }
    {
        self.bytes.insert(offset, value)?;
        Ok(())
    }

    pub fn remove(&mut self, offset: u64)
        ensures { at_offset self.new ≡ put (at_offset self.old) offset None }
    {
        self.bytes.remove(&offset);
    }
}
