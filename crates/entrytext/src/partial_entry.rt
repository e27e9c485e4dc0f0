//! What the lines of an entry have said so far.

use run_world::{Answer, Answers, ByteList};

/// What the lines so far have said.
#[derive(Drop)]
pub struct PartialEntry {
    /// Whether the first line has come.
    pub begun: bool,
    pub state: ByteList,
    pub hidden: ByteList,
    /// The answers before the last one.
    pub done: Answers,
    /// The answer of the last `ans` line.
    pub last: Option<Answer>,
    pub ended: bool,
}
