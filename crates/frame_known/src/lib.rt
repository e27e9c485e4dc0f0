//! What is known of addresses of the stack before each place of a listing: the greatest set of facts that supports itself.
//!
//! At one place it is a row. A fact over an op is an older one, or one on the output of a COPY, an INT_ADD or an INT_SUB. So
//! only the stack pointer and the outputs of such ops may have facts, and these, as wide as the stack pointer, are the
//! slots: numbers in rising order, by space and then by offset (`src/slots.rt`). An op's range is found among them by
//! halves, and those that share a byte with an output stand together. A row has for each slot the offset that is known of
//! it, if there is one: before a place a range has at most one offset, since the stack pointer is no kept range. The row
//! after an op is the definition of what it passes on, slot by slot (`src/rows.rt`), and nothing else is known after it
//! (`proofs/Meaning.antt`).
//!
//! For each block there is a row of what is known at its first place; the facts before its other places follow op by op.
//! A block's row begins as what the first edge that is passed brings, and later keeps what each further edge brings too. A
//! block waits as its row was made or has lost a fact; it is then passed, op by op, and what is known at its end is brought
//! to each block behind it. Blocks that wait are passed by rising number, round after round (`src/known.rt`).
//!
//! Why the rows are the facts. Each fact of any set that supports itself is in each row that was made: it is known where
//! the block begins that was passed, so at its end, since an op passes on no less from more, and so in what is brought
//! (`proofs/Walked.antt`, `proofs/Settled.antt`). And once no block waits, what a row knows is supported on each edge: by
//! the block in front, which was passed after its row changed last. So the rows support themselves, and hold every set that
//! does (`proofs/Facts.antt`). It ends, since rows only lose facts: what they may still lose and the blocks that wait are
//! less after each pass.
#![tactic(auto)]

mod calls;
mod entering;
mod known;
mod meeting;
mod offsets;
mod rows;
mod slots;

pub use known::{Known, known_facts};
pub use rows::{Row, offset, over};
pub use slots::Slots;
