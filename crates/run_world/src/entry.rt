//! What a run begins with.

use sqlite_items::Items;

/// A byte of a space.
#[derive(Clone, Copy, Debug, PartialEq, Eq)]
pub struct Byte {
    pub space: u8,
    pub offset: u64,
    pub value: u8,
}

pub type ByteList = Items<Byte>;

/// What a callee does, as far as a run sees it.
#[derive(Drop)]
pub struct Answer {
    /// The result word.
    pub word: u128,
    /// Bytes of the register space after the callee; a later one overrides an earlier one, and the others are 0.
    pub registers: ByteList,
    /// Bytes of ram spaces that the callee writes, in order.
    pub memory: ByteList,
    /// Bytes of the first ram space that the callee hides, in order.
    pub hidden: ByteList,
}

pub type Answers = Items<Answer>;

/// What a run begins with. In both lists of bytes a later item of a byte overrides an earlier one.
#[derive(Drop)]
pub struct Entry {
    /// Bytes of any space. The read-only bytes are the listing's, and the others are 0.
    pub state: ByteList,
    /// Hidden bytes of the first ram space.
    pub hidden: ByteList,
    /// The answers that the calls of the run take, in order.
    pub answers: Answers,
}
