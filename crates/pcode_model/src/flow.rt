//! How a run goes on after an op, and the blocks that the reached places make.

use crate::listing::{Place, Varnode};
use crate::tables::Table;
use sqlite_items::Items;

/// How a run goes on after an op.
#[derive(Clone, Copy, Debug, PartialEq, Eq)]
pub enum Turn {
    /// To the next place.
    GoesOn,
    /// At RETURN.
    Returns,
    /// At a CALL of a callee that doesn't return.
    Stops,
    /// At BRANCH: to the destination.
    Branches(Varnode),
    /// At CBRANCH: to the destination, or to the next place.
    Tests(Varnode),
    /// At BRANCHIND: to a place of its table.
    Switches,
}

/// Why an edge leads nowhere, or a jump table doesn't hold.
#[derive(Clone, Copy, Debug, PartialEq, Eq)]
pub enum FlowWhy {
    /// A relative branch to an index below 0 or above the op count.
    BadRelative,
    /// No instruction stands at the address.
    NoTarget,
    /// The next instruction doesn't stand at address plus length.
    FallsOff,
    /// The BRANCHIND has no jump table.
    NoTable,
    /// An edge from outside leads into the slice of the BRANCHIND.
    TableEntered,
}

/// Numbers of blocks.
pub type Numbers = Items<u32>;

/// How a block is left. Blocks go by their number, which counts from 0 by rising first place.
#[derive(Drop)]
pub enum Exit {
    Return,
    Jump(u32),
    /// By the test of a CBRANCH: the block of its destination, and that of the next place. Both may be one.
    Test { taken: u32, other: u32 },
    /// By the table of a BRANCHIND, with the block of each case in the cases' order.
    Switch { table: Table, blocks: Numbers },
    /// After a CALL of a callee that doesn't return.
    Stop,
}

pub type Places = Items<Place>;

/// Places that a run passes one after another, and how it goes on after the last one.
#[derive(Drop)]
pub struct Block {
    pub places: Places,
    pub exit: Exit,
}

/// The blocks of a listing by rising first place.
pub type Flow = Items<Block>;
