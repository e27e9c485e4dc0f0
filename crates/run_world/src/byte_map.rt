//! Bytes by space and offset.

ghost use Rattle.std.specs.Prelude.{◌≡◌, ℕ, None, Some, OnOk, OnErr};
ghost use Rattle.pcode_model.specs.Spaces.{put_in};
ghost use Rattle.run_world.specs.Maps.{IsNextAfter, at, bytes_of};

use bits_core::Memory;
use std::alloc::Global;
use std::collections::BTreeMap;
use std::ops::Bound;

/// Bytes at some offsets of some spaces. Its memory grows with the number of these.
#[derive(Drop)]
pub struct ByteMap {
    bytes: BTreeMap<(u8, u64), u8>,
}

impl ByteMap {
    pub fn new(alloc: Global) -> ByteMap
        ensures { at result ≡ λ s o. None }
    {
        ByteMap {
            bytes: BTreeMap::new(alloc),
        }
    }

    /// The byte at an offset of a space, where there is one.
    pub fn get(&self, space: u8, offset: u64) -> Option<u8>
        ensures { result ≡ at self.now space offset }
    {
        self.bytes.get(&(space, offset)).copied()
    }

    pub fn put(&mut self, space: u8, offset: u64, value: u8) -> Result<(), Memory>
        ensures map { OnOk result (at self.new ≡ put_in space offset (Some value) (at self.old)) }
        ensures bytes { OnOk result (bytes_of self.new ≡ put_in space offset value (bytes_of self.old)) }
    {
        self.bytes.insert((space, offset), value)?;
        Ok(())
    }

    pub fn remove(&mut self, space: u8, offset: u64)
        ensures { at self.new ≡ put_in space offset None (at self.old) }
    {
        self.bytes.remove(&(space, offset));
    }

    /// The least offset past this one at which the space has a byte.
    pub fn after(&self, space: u8, offset: u64) -> Option<u64>
        ensures { IsNextAfter self.now space offset result }
    {
        let past = (Bound::Excluded((space, offset)), Bound::Unbounded);
        match self.bytes.range(past).next() {
            Some((key, _)) if key.0 == space => Some(key.1),
            _ => None,
        }
    }
}
