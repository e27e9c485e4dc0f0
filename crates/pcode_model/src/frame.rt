//! Frame variables: which bytes of the stack a function has as variables of its own, and which accesses are theirs.
//! Offsets are counted in bytes from the word that the stack pointer has at entry.

ghost use Rattle.std.specs.Prelude.{◌≡◌};
ghost use Rattle.pcode_model.specs.Frame.{no_variables};

use crate::listing::{Place, Varnode};
use sqlite_items::Items;
use std::alloc::Global;

/// Before a place a register or unique range, as wide as the stack pointer, holds the address at an offset.
#[derive(Clone, Copy, Debug, PartialEq, Eq)]
pub struct OffsetFact {
    pub place: Place,
    pub range: Varnode,
    pub offset: i64,
}

/// An access of a frame variable: that of the LOAD or STORE at a place, which has the number 0, or that of the argument of
/// that number of the call there.
#[derive(Clone, Copy, Debug, PartialEq, Eq)]
pub struct FrameAccess {
    pub place: Place,
    pub argument: u32,
    pub offset: i32,
    /// Bytes, at least 1.
    pub size: u32,
}

/// The bytes of a frame variable.
#[derive(Clone, Copy, Debug, PartialEq, Eq)]
pub struct FrameVariable {
    pub offset: i32,
    /// Bytes, at least 1.
    pub size: u32,
}

/// The frame of a listing.
#[derive(Drop)]
pub struct Frame {
    /// By rising place.
    pub facts: Items<OffsetFact>,
    /// The offsets of addresses that a callee or the memory may come to know, rising.
    pub escapes: Items<i64>,
    /// The accesses of the variables, by rising place, and at one place by number.
    pub accesses: Items<FrameAccess>,
    /// By rising offset. No two share a byte.
    pub variables: Items<FrameVariable>,
}

impl Frame {
    /// The frame without variables, which is that of a listing without a `stack` line.
    pub fn empty(alloc: Global) -> Frame
        ensures { result ≡ no_variables }
    {
        Frame {
            facts: Items::new(alloc),
            escapes: Items::new(alloc),
            accesses: Items::new(alloc),
            variables: Items::new(alloc),
        }
    }
}
