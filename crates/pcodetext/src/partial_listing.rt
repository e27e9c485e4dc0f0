//! What the lines of a listing have said so far.

ghost use Rattle.std.specs.Prelude.{◌≡◌, IfOk};
ghost use Rattle.pcodetext.specs.Meaning.{start};

use crate::callees::CalleeTable;
use crate::fixed::FixedTable;
use crate::tables::{ProtoTable, SpaceTable};
use pcode_model::{Function, Instruction, Instructions, Varnode};
use sqlite_items::Items;
use std::alloc::{AllocError, Global};

/// What the lines so far have said. A field is empty, None or false where no such line has come yet.
#[derive(Drop)]
pub struct PartialListing {
    /// 1 or 2.
    pub version: Option<u8>,
    /// The constant space, and then the declared ones.
    pub spaces: SpaceTable,
    pub stack: Option<Varnode>,
    pub protos: ProtoTable,
    pub func: Option<Function>,
    pub callees: CalleeTable,
    pub fixed: FixedTable,
    /// The instructions before the last one.
    pub done: Instructions,
    /// The instruction of the last `at` line.
    pub last: Option<Instruction>,
    /// The number of op lines.
    pub ops: u32,
    pub ended: bool,
}

impl PartialListing {
    /// What is said before the first line.
    pub fn new(alloc: Global) -> Result<PartialListing, AllocError>
        ensures { IfOk result (λ said. said ≡ start) }
    {
        Ok(PartialListing {
            version: None,
            spaces: SpaceTable::new(alloc)?,
            stack: None,
            protos: ProtoTable::new(alloc),
            func: None,
            callees: CalleeTable::new(alloc),
            fixed: FixedTable::new(alloc),
            done: Items::new(alloc),
            last: None,
            ops: 0,
            ended: false,
        })
    }
}
