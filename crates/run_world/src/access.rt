//! Accesses of several bytes, which go on at 0 past the end of the space.

ghost use Rattle.std.specs.Prelude.{◌≡◌, ◌≤◌, IfOk, OnOk, OnErr};
ghost use Rattle.pcode_model.specs.Spaces.{any_at, bytes_at, each_at, is_some, put_in};
ghost use Rattle.run_world.specs.Maps.{at, bytes_of};
ghost use Rattle.run_world.specs.Setting.{size};

use crate::byte_map::ByteMap;
use crate::shape::Shape;
use bits_core::Memory;
use std::alloc::Global;

impl ByteMap {
    /// The byte at an offset of a space, 0 where there is none.
    pub fn byte(&self, space: u8, offset: u64) -> u8
        ensures { result ≡ bytes_of self.now space offset }
    {
        match self.get(space, offset) {
            Some(byte) => byte,
            None => 0,
        }
    }

    /// So many bytes of a space of that shape from an offset on.
    pub fn read(
        &self,
        alloc: Global,
        shape: Shape,
        space: u8,
        offset: u64,
        count: usize,
    ) -> Result<Vec<u8>, Memory>
        requires { offset ≤ shape.last }
        ensures { IfOk result (λ v. v.items ≡ bytes_at (size shape) (bytes_of self.now space) offset count) }
    {
        let mut out = Vec::new(alloc);
        let mut here = offset;
        for _ in 0..count {
            out.push(self.byte(space, here))?;
            here = shape.next(here);
        }
        Ok(out)
    }

    /// Puts bytes in a space of that shape from an offset on.
    pub fn write(
        &mut self,
        shape: Shape,
        space: u8,
        offset: u64,
        bytes: &[u8],
    ) -> Result<(), Memory>
        requires { offset ≤ shape.last }
        ensures { OnOk result
            (bytes_of self.new ≡ each_at (size shape) (put_in space) offset bytes.now (bytes_of self.old)) }
    {
        let mut here = offset;
        for b in bytes {
            self.put(space, here, *b)?;
            here = shape.next(here);
        }
        Ok(())
    }

    /// Whether the map has one of so many bytes of a space of that shape from an offset on.
    pub fn meets(&self, shape: Shape, space: u8, offset: u64, count: usize) -> bool
        requires { offset ≤ shape.last }
        ensures { result ≡ any_at (size shape) (λ o. is_some (at self.now space o)) offset count }
    {
        let mut here = offset;
        for _ in 0..count {
            if self.get(space, here).is_some() {
                return true;
            }
            here = shape.next(here);
        }
        false
    }
}
