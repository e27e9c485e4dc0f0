//! Spaces by their numbers, and ranges of bytes in them.

ghost use Rattle.std.specs.Prelude.{◌≡◌, ◌<◌, ◌^◌, nat_lt};
ghost use Rattle.pcode_model.specs.Ranges.{is_kind, leaves, meets};
ghost use Rattle.pcode_model.specs.Spaces.{number_of, same_kind};

use crate::listing::{Space, SpaceKind};

impl SpaceKind {
    /// Whether both are one kind.
    pub fn same(self, other: SpaceKind) -> bool
        ensures { result ≡ same_kind self other }
    {
        match self {
            SpaceKind::Constant => matches!(other, SpaceKind::Constant),
            SpaceKind::Ram => matches!(other, SpaceKind::Ram),
            SpaceKind::Register => matches!(other, SpaceKind::Register),
            SpaceKind::Unique => matches!(other, SpaceKind::Unique),
        }
    }
}

/// Whether the space with that number is of that kind. A number past the last space is read as a constant space.
pub fn is_kind(kind: SpaceKind, spaces: &[Space], number: u64) -> bool
    ensures { result ≡ is_kind kind spaces.now number }
{
    match spaces.get(number as usize) {
        Some(space) => kind.same(space.kind),
        None => kind.same(SpaceKind::Constant),
    }
}

/// The number of the first space of that kind, or the number of spaces where there is none.
pub fn number_of(kind: SpaceKind, spaces: &[Space]) -> usize
    ensures { result ≡ number_of kind spaces.now }
{
    for i in 0..spaces.len() {
        if kind.same(spaces[i].kind) {
            return i;
        }
    }
    spaces.len()
}

// Whether an end is past the last byte of a space whose offsets have `size` bytes.
fn passes(size: u8, end: u128) -> bool
    requires { end < 2 ^ 65 }
    ensures { result ≡ nat_lt (256 ^ size) end }
{
    if size > 8 {
        return false;
    }
    1u128 << (8 * u32::from(size)) < end
}

/// Whether so many bytes from an offset on leave the space with that number.
pub fn leaves(spaces: &[Space], number: u64, offset: u64, length: u32) -> bool
    ensures { result ≡ leaves spaces.now number offset length }
{
    let end = u128::from(offset) + u128::from(length);
    match spaces.get(number as usize) {
        Some(space) => passes(space.size, end),
        None => 1 < end,
    }
}

/// Whether two ranges of one space share a byte.
pub fn meets(offset: u64, length: u32, other: u64, other_length: u32) -> bool
    ensures { result ≡ meets offset length other other_length }
{
    u128::from(offset) < u128::from(other) + u128::from(other_length)
        && u128::from(other) < u128::from(offset) + u128::from(length)
}
