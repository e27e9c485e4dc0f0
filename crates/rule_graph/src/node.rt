//! The nodes of a graph.

use bits_core::{Width, Word};
use rule_views::{Pair, Single};

/// What a node computes of its inputs, which are named by number.
#[derive(Clone, Copy)]
pub enum Op {
    /// What a parameter or anything else outside expressions gives.
    Entry,
    Copy(u32),
    Const(Word),
    Single(Single, u32),
    Pair(Pair, u32, u32),
}

/// A node and the width of its value.
#[derive(Clone, Copy)]
pub struct Node {
    pub op: Op,
    pub width: Width,
}
