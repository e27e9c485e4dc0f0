//! The names of ops, values, blocks and slots.

/// An op of a graph.
#[derive(Clone, Copy, Debug, PartialEq, Eq)]
pub struct OpId(pub u32);

/// The value of an op that has a width. It has the op's number.
#[derive(Clone, Copy, Debug, PartialEq, Eq)]
pub struct ValueId(pub u32);

/// A block of a graph.
#[derive(Clone, Copy, Debug, PartialEq, Eq)]
pub struct BlockId(pub u32);

/// An input of an op, by its place among the op's inputs, which counts from 0.
#[derive(Clone, Copy, Debug, PartialEq, Eq)]
pub struct Slot {
    pub op: OpId,
    pub slot: u32,
}
