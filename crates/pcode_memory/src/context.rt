//! What stays the same during a run.

ghost use Rattle.std.specs.Prelude.{◌≡◌, ◌≤◌};
ghost use Rattle.pcode_model.specs.Memory.{is_framed, offset_from};
ghost use Rattle.pcode_model.specs.Places.{place};
ghost use Rattle.pcode_model.specs.Spaces.{any_at};
ghost use Rattle.run_world.specs.Setting.{size};
ghost use Rattle.pcode_memory.specs.Context.{IsContext, frame_in, layout_of};

use crate::frame;
use pcode_model::{Frame, Listing};
use run_world::{Answer, Setting, Shape};
use std::alloc::Global;

#[derive(Drop)]
pub struct PcodeContext<'a> {
    pub alloc: Global,
    pub listing: &'a Listing,
    pub frame: &'a Frame,
    /// The answers of the entry.
    pub answers: &'a [Answer],
    pub setting: Setting,
    /// The shape of the first ram space.
    pub ram: Shape,
    /// The stack pointer's entry word.
    pub stack0: u64,
}

impl<'a> PcodeContext<'a> {
    /// The offset of the frame variable's access at a place with that number, where it is one.
    pub fn own(&self, address: u128, index: u32, argument: u32) -> Option<u64>
        requires { IsContext self.now }
        ensures { result ≡ (frame_in self.now).own (place address index) argument }
    {
        frame::own(self.frame, self.ram, address, index, argument)
    }

    // An address of the first ram space as an offset from the stack pointer's entry word.
    fn offset(&self, address: u64) -> u128
        ensures { result ≡ offset_from (size self.now.ram) self.now.stack0 address }
    {
        let stack0 = u128::from(self.stack0);
        let address = u128::from(address);
        if stack0 <= address {
            address - stack0
        } else {
            (address + u128::from(self.ram.last) + 1).saturating_sub(stack0)
        }
    }

    /// Whether the byte at an address of a space is one of a frame variable.
    pub fn is_framed(&self, space: u8, address: u64) -> bool
        requires { IsContext self.now }
        ensures { result ≡ is_framed (layout_of self.now) space address }
    {
        space == self.setting.first_ram
            && frame::is_framed(self.frame, self.ram, self.offset(address))
    }

    /// Whether one of so many bytes is one of a frame variable.
    pub fn any_framed(&self, shape: Shape, space: u8, address: u64, count: usize) -> bool
        requires context { IsContext self.now }
        requires inside { address ≤ shape.last }
        ensures { result ≡ any_at (size shape) (is_framed (layout_of self.now) space) address count }
    {
        let mut here = address;
        for _ in 0..count {
            if self.is_framed(space, here) {
                return true;
            }
            here = shape.next(here);
        }
        false
    }
}
