//! What a line of an entry says, as it is written.

use pcode_model::Bytes;

/// Bytes of a space from an offset on, as they are written.
#[derive(Drop)]
pub struct BytesLine {
    /// The number of the space. None where the line names no ram space.
    pub space: Option<u8>,
    pub offset: u64,
    /// At least one.
    pub bytes: Bytes,
}

/// Which bytes of an answer a line gives.
#[derive(Clone, Copy, Debug, PartialEq, Eq)]
pub enum Part {
    /// `areg HEX PAIRS`
    Registers,
    /// `amem SPACE:HEX PAIRS`
    Memory,
    /// `ahid HEX PAIRS`
    Hidden,
}

/// A line by its form.
#[derive(Drop)]
pub enum Form {
    /// `entry 1`
    Entry,
    /// `reg HEX PAIRS`, `uni HEX PAIRS` or `mem SPACE:HEX PAIRS`
    State(BytesLine),
    /// `hid HEX PAIRS`
    Hidden(BytesLine),
    /// `ans HEX`
    Answer(u128),
    Answered(Part, BytesLine),
    /// `end`
    End,
    /// None of these.
    Nothing,
}
