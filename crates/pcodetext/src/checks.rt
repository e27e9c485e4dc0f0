//! Tests of ranges as they are written, and of the spaces, that several kinds of line share.

ghost use Rattle.std.specs.Prelude.{◌≡◌};
ghost use Rattle.std.specs.List.{list_any};
ghost use Rattle.pcodetext.specs.Checks.{is_complete, is_of_kind, is_unknown, leaves_known, leaves_space, of_some, of_unknown};

use crate::tables::SpaceTable;
use crate::written::{Named, Written};
use pcode_model::SpaceKind;
use pcode_model::ranges::{is_kind, leaves};

impl Named {
    /// Whether it is no known space.
    pub fn is_unknown(self) -> bool
        ensures { result ≡ is_unknown self }
    {
        match self {
            Named::Space(_) => false,
            Named::Stack | Named::Unknown => true,
        }
    }

    /// Whether it is a known space of that kind.
    pub fn is_of_kind(self, kind: SpaceKind, spaces: &SpaceTable) -> bool
        ensures { result ≡ is_of_kind kind spaces.now self }
    {
        match self {
            Named::Space(number) => is_kind(kind, spaces.as_slice(), u64::from(number)),
            Named::Stack | Named::Unknown => false,
        }
    }

    /// Whether so many bytes from an offset on leave it, where it is known.
    pub fn leaves(self, spaces: &SpaceTable, offset: u64, size: u32) -> bool
        ensures { result ≡ leaves_known spaces.now self offset size }
    {
        match self {
            Named::Space(number) => leaves(spaces.as_slice(), u64::from(number), offset, size),
            Named::Stack | Named::Unknown => false,
        }
    }
}

impl Written {
    /// Whether it leaves its space, where that is known.
    pub fn leaves_space(self, spaces: &SpaceTable) -> bool
        ensures { result ≡ leaves_space spaces.now self }
    {
        self.space.leaves(spaces, self.offset, self.size)
    }
}

/// Whether an output or a result is in no known space.
pub fn is_unknown(range: Option<Written>) -> bool
    ensures { result ≡ of_some of_unknown range }
{
    match range {
        Some(range) => range.space.is_unknown(),
        None => false,
    }
}

/// Whether one of the ranges is in no known space.
pub fn any_unknown(ranges: &[Written]) -> bool
    ensures { result ≡ list_any of_unknown ranges.now }
{
    for range in ranges {
        if range.space.is_unknown() {
            return true;
        }
    }
    false
}

/// Whether exactly one register space, exactly one unique space and at least one ram space are declared.
pub fn is_complete(spaces: &SpaceTable) -> bool
    ensures { result ≡ is_complete spaces.now }
{
    spaces.how_many(SpaceKind::Register) == 1
        && spaces.how_many(SpaceKind::Unique) == 1
        && spaces.how_many(SpaceKind::Ram) >= 1
}
