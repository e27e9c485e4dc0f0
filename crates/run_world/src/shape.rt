//! The shape of a space: where it ends, and the order of its words.

ghost use Rattle.std.specs.Prelude.{◌≡◌, ◌≤◌, ◌+◌, ◌%◌, ◌^◌};
ghost use Rattle.pcode_model.specs.Spaces.{size_of, next};
ghost use Rattle.run_world.specs.Setting.{HasShape, size};

use pcode_model::{Listing, Space};

#[derive(Clone, Copy, Debug, PartialEq, Eq)]
pub struct Shape {
    /// The last offset.
    pub last: u64,
    /// Whether the byte at a word's offset is its most significant one.
    pub big: bool,
}

// The last offset of a space whose offsets have so many bytes.
#[tactic(auto, using(crate::proofs::Sizes::last_wide, crate::proofs::Sizes::last_narrow))]
fn last_offset(size: u8) -> u64
    requires { 256 ^ size ≤ 2 ^ 64 }
    ensures { result + 1 ≡ 256 ^ size }
{
    if size >= 8 {
        return u64::MAX;
    }
    let bits = 8 * u32::from(size);
    (1u64 << bits) - 1
}

impl Shape {
    /// The shape of the space with that number.
    pub fn new(listing: &Listing, space: u8) -> Shape
        requires { size_of listing.now space ≤ 2 ^ 64 }
        ensures { HasShape listing.now space result }
    {
        match listing.spaces.get(usize::from(space)) {
            Some(space) => Shape {
                last: last_offset(space.size),
                big: space.big,
            },
            None => Shape {
                last: 0,
                big: false,
            },
        }
    }

    /// The next offset, which is 0 past the last one.
    pub fn next(self, offset: u64) -> u64
        requires { offset ≤ self.last }
        ensures value { result ≡ next (size self) offset }
        ensures inside { result ≤ self.last }
    {
        if offset == self.last { 0 } else { offset + 1 }
    }

    /// An address, taken modulo the size of the space.
    pub fn reduce(self, address: u128) -> u64
        ensures value { result ≡ address % size self }
        ensures inside { result ≤ self.last }
    {
        (address % (u128::from(self.last) + 1)) as u64
    }
}
