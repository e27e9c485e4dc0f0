//! What a run has shown.

use bits_core::Word;
use pcode_model::Bytes;
use sqlite_items::Items;

pub type WordList = Items<Word>;

/// What the world outside sees of a run.
#[derive(Drop)]
pub enum Event {
    /// A call of the function at `target`.
    Call {
        target: u128,
        args: WordList,
    },
    /// The operation CALLOTHER with this index.
    Other {
        index: u64,
        args: WordList,
    },
    /// Bytes in the order of memory, written to a space from an offset on.
    Store {
        space: u8,
        offset: u64,
        bytes: Bytes,
    },
}

pub type Events = Items<Event>;

/// How a run ends.
#[derive(Clone, Copy, Debug, PartialEq, Eq)]
pub enum End {
    /// At a RETURN, with the word of the result where there is one.
    Returned(Option<Word>),
    /// At a division or a remainder by 0.
    DivZero,
    /// Where a store other than to a stack variable, or a write of a callee, meets a read-only byte.
    ReadOnlyWrite,
    /// Where a call finds no answer left.
    NoAnswer,
    /// At a call of a function that is declared not to return.
    NoReturn,
    /// Where an access meets a stack variable's bytes that isn't its own, or hidden or spoiled bytes.
    Outside,
    /// Where a branch has no place to go to; in no run of a listing whose flow has no fault.
    BadTarget,
    /// Where a step of C has no meaning.
    Undefined,
}

/// What a run has shown so far; no end means that it goes on.
#[derive(Drop)]
pub struct Trace {
    pub events: Events,
    pub end: Option<End>,
}
