//! The text of an entry: read, with the first fault of its least faulty line.
//!
//! A line is known by its first word. Its form (form.rt, forms.rt) is what it says as it is written, with the space that
//! its word or its name stands for; the tests of a form (specs/Faults) stand in the order in which its faults count; and a
//! line that passes them all adds to what was said before (steps.rt). `line_reader` reads line after line until one fails.
//! That an entry lies in its listing is an invariant of the lines so far (proofs/Kept): the tests of a line are just what
//! its own bytes need in order to lie there, and no later line changes a byte.
#![tactic(auto)]

pub mod fault;
pub mod form;
pub mod forms;
pub mod partial_entry;
pub mod reader;
pub mod spaces;
pub mod steps;
pub mod words;

pub use fault::{EntryFault, LineFault, Why};
pub use form::{BytesLine, Form, Part};
pub use partial_entry::PartialEntry;
pub use reader::read_entry;
