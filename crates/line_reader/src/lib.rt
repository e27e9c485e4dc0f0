//! A text that is read line by line, once for every such text.
//!
//! A text is read by a state of what its lines said so far. A line either leads on to the next state or has a fault, and
//! the first line that has one ends the reading, by its number from 1 on: so the fault that is given is that of the least
//! faulty line, and within the line the first of the tests that hold (specs/Faults). `LineReader` is such a step as a
//! program, and `read_lines` the loop over all lines, which does exactly what `progress` says.
//! What a text says is decided where it ends (`concluded`). A fact of it is shown as an invariant of the state: true at
//! the start, kept by each line that leads on, and enough at the end (proofs/Kept, `read_keeps`).
#![tactic(auto)]

pub mod fault;
pub mod reader;

pub use fault::{LineFault, Stop};
pub use reader::{LineReader, read_lines};
