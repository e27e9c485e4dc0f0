//! Memory with hidden and spoiled bytes.

ghost use Rattle.std.specs.Prelude.{◌≡◌, ◌≤◌, ℕ, IfOk, OnOk};
ghost use Rattle.pcode_model.specs.Memory.{conceal, found, is_hidden, poke_whole, tuck, whole};
ghost use Rattle.pcode_model.specs.Spaces.{any_at, bytes_at, each_at};
ghost use Rattle.run_world.specs.Setting.{HasShape, size};
ghost use Rattle.pcode_memory.specs.Context.{IsContext, got, layout_of, spoil, whole_of};

use crate::context::PcodeContext;
use bits_core::Memory;
use pcode_model::Bytes;
use run_world::{ByteMap, OffsetMap, Shape};

#[derive(Drop)]
pub struct Whole {
    pub bytes: ByteMap,
    /// The hidden bytes of the first ram space.
    pub hidden: OffsetMap,
    /// The spoiled bytes of the first ram space, by any value.
    pub spoiled: OffsetMap,
}

impl Whole {
    // Whether one of so many bytes is hidden.
    fn any_hidden(
        &self,
        context: &PcodeContext,
        shape: Shape,
        space: u8,
        address: u64,
        count: usize,
    ) -> bool
        requires context { IsContext context.now }
        requires inside { address ≤ shape.last }
        ensures { result ≡ any_at (size shape) (is_hidden context.now.listing.now (whole_of self.now) space) address count }
    {
        let mut here = address;
        for _ in 0..count {
            if self.is_hidden(context, space, here) {
                return true;
            }
            here = shape.next(here);
        }
        false
    }

    fn is_hidden(&self, context: &PcodeContext, space: u8, address: u64) -> bool
        requires { IsContext context.now }
        ensures { result ≡ is_hidden context.now.listing.now (whole_of self.now) space address }
    {
        space == context.setting.first_ram && self.hidden.get(address).is_some()
    }

    fn any_spoiled(&self, shape: Shape, address: u64, count: usize) -> bool
        requires { address ≤ shape.last }
        ensures { result ≡ any_at (size shape) (whole_of self.now).spoiled address count }
    {
        let mut here = address;
        for _ in 0..count {
            if self.spoiled.get(here).is_some() {
                return true;
            }
            here = shape.next(here);
        }
        false
    }

    /// So many bytes by a pointer. None where they meet a byte of a frame variable or a hidden one.
    pub fn read(
        &self,
        context: &PcodeContext,
        shape: Shape,
        space: u8,
        address: u64,
        count: u32,
    ) -> Result<Option<Bytes>, Memory>
        requires context { IsContext context.now }
        requires shape { HasShape context.now.listing.now space shape }
        requires inside { address ≤ shape.last }
        ensures { IfOk result
            (λ bytes. got bytes ≡ (whole (layout_of context.now)).read space address count (whole_of self.now)) }
    {
        if context.any_framed(shape, space, address, count as usize) {
            return Ok(None);
        }
        if self.any_hidden(context, shape, space, address, count as usize) {
            return Ok(None);
        }
        let bytes = self
            .bytes
            .read(context.alloc, shape, space, address, count as usize)?;
        Ok(Some(Bytes::from_vec(bytes)))
    }

    // What an access of a frame variable finds at an address.
    fn found(&self, context: &PcodeContext, address: u64) -> u8
        requires { IsContext context.now }
        ensures { result ≡ found context.now.listing.now (whole_of self.now) address }
    {
        match self.hidden.get(address) {
            Some(byte) => byte,
            None => self.bytes.byte(context.setting.first_ram, address),
        }
    }

    fn found_bytes(
        &self,
        context: &PcodeContext,
        address: u64,
        count: u32,
    ) -> Result<Vec<u8>, Memory>
        requires context { IsContext context.now }
        requires inside { address ≤ context.now.ram.last }
        ensures { IfOk result (λ v.
            v.items
            ≡ bytes_at (size context.now.ram) (found context.now.listing.now (whole_of self.now)) address count) }
    {
        let mut out = Vec::new(context.alloc);
        let mut here = address;
        for _ in 0..count {
            out.push(self.found(context, here))?;
            here = context.ram.next(here);
        }
        Ok(out)
    }

    /// So many bytes of a frame variable. None where one of them is spoiled.
    pub fn read_own(
        &self,
        context: &PcodeContext,
        address: u64,
        count: u32,
    ) -> Result<Option<Bytes>, Memory>
        requires context { IsContext context.now }
        requires inside { address ≤ context.now.ram.last }
        ensures { IfOk result (λ bytes.
            (c : ℕ) → got bytes ≡ (whole (layout_of context.now)).read_own address c count (whole_of self.now)) }
    {
        if self.any_spoiled(context.ram, address, count as usize) {
            return Ok(None);
        }
        let bytes = self.found_bytes(context, address, count)?;
        Ok(Some(Bytes::from_vec(bytes)))
    }

    /// Writes a byte, which is hidden no longer.
    pub fn poke(
        &mut self,
        context: &PcodeContext,
        space: u8,
        address: u64,
        byte: u8,
    ) -> Result<(), Memory>
        requires { IsContext context.now }
        ensures { OnOk result
            (whole_of self.new ≡ poke_whole context.now.listing.now space address byte (whole_of self.old)) }
    {
        self.bytes.put(space, address, byte)?;
        if space == context.setting.first_ram {
            self.hidden.remove(address);
        }
        Ok(())
    }

    /// Writes bytes from an address on.
    pub fn write(
        &mut self,
        context: &PcodeContext,
        shape: Shape,
        space: u8,
        address: u64,
        bytes: &[u8],
    ) -> Result<(), Memory>
        requires context { IsContext context.now }
        requires inside { address ≤ shape.last }
        ensures { OnOk result (whole_of self.new
            ≡ each_at (size shape) (poke_whole context.now.listing.now space) address bytes.now
            (whole_of self.old)) }
    {
        let mut here = address;
        for b in bytes {
            self.poke(context, space, here, *b)?;
            here = shape.next(here);
        }
        Ok(())
    }

    // Hides a byte of a frame variable's access, which is spoiled no longer.
    fn tuck(&mut self, address: u64, byte: u8) -> Result<(), Memory>
        ensures { OnOk result (whole_of self.new ≡ tuck address byte (whole_of self.old)) }
    {
        self.hidden.put(address, byte)?;
        self.spoiled.remove(address);
        Ok(())
    }

    /// Writes bytes of a frame variable from an address on.
    pub fn write_own(
        &mut self,
        context: &PcodeContext,
        address: u64,
        bytes: &[u8],
    ) -> Result<(), Memory>
        requires context { IsContext context.now }
        requires inside { address ≤ context.now.ram.last }
        ensures { OnOk result ((c : ℕ)
            → whole_of self.new
            ≡ (whole (layout_of context.now)).write_own address c bytes.now (whole_of self.old)) }
    {
        let mut here = address;
        for b in bytes {
            self.tuck(here, *b)?;
            here = context.ram.next(here);
        }
        Ok(())
    }

    fn spoil(&mut self, address: u64) -> Result<(), Memory>
        ensures { OnOk result (whole_of self.new ≡ spoil address (whole_of self.old)) }
    {
        self.spoiled.put(address, 1)?;
        Ok(())
    }

    /// Hides a byte that an answer hides. One of a frame variable is spoiled from then on.
    pub fn conceal(&mut self, context: &PcodeContext, address: u64, byte: u8) -> Result<(), Memory>
        requires { IsContext context.now }
        ensures { OnOk result (whole_of self.new ≡ conceal (layout_of context.now) address byte (whole_of self.old)) }
    {
        self.hidden.put(address, byte)?;
        if context.is_framed(context.setting.first_ram, address) {
            return self.spoil(address);
        }
        Ok(())
    }
}
