//! Blocks of an SSA function, with their exits.

use opgraph::{BlockId, OpGraph};
use sqlite_items::Items;

pub type Arms = Items<Arm>;

pub type Predecessors = Items<BlockId>;

pub type SsaBlocks = Items<SsaBlock>;

/// A case of a switch: to a block where the value is this one.
#[derive(Clone, Copy, Debug, PartialEq, Eq)]
pub struct Arm {
    pub value: u128,
    pub to: BlockId,
}

/// How a block is left. A value that it reads is the first input of the block's last op.
#[derive(Drop)]
pub enum SsaExit {
    /// The end of the function, with the value that a RETURN reads or none.
    Return,
    Jump(BlockId),
    /// To the first block where the value that a CBRANCH reads isn't 0, and else to the second.
    Test(BlockId, BlockId),
    /// By the value that a BRANCHIND reads, which is that of an arm.
    Switch(Arms),
    /// After a call of a function that doesn't return.
    Stop,
}

/// A block of the graph, with the blocks that lead to it, in the order of the inputs of its MULTIEQUALs.
#[derive(Drop)]
pub struct SsaBlock {
    pub id: BlockId,
    pub predecessors: Predecessors,
    pub exit: SsaExit,
}

/// A graph of operations with its blocks by first place, and the block where a run begins.
#[derive(Drop)]
pub struct Parts {
    pub graph: OpGraph,
    pub blocks: SsaBlocks,
    pub entry: BlockId,
}
