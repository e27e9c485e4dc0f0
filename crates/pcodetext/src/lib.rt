//! The text of a listing: read, with the first fault of its least faulty line.
//!
//! The reader is a fold over lines. What the lines so far have said is one value, `PartialListing`; a line is first put
//! into its form, which takes the words apart and looks names up, and only then tested for faults, in one order that is
//! the same in code and definition, so that the first test that holds is the fault that counts. Where no test holds, the
//! line says its part, and the value grows by it.
//!
//! That what is read is well formed is an invariant of this fold: each line without a fault keeps the rules of what it
//! declares, and the tests are exactly what that needs. A few rules hold since a line stands in its place: nothing is
//! declared before the prototypes but spaces and the stack pointer, so a new space changes no range that was tested.
//!
//! Names and addresses are looked up in tables by their text and number, and read-only bytes by two tables that hold
//! where each space's bytes end, so that reading is linear in the text.
#![tactic(auto)]

pub mod at_line;
pub mod bytes_line;
pub mod callees;
pub mod checks;
pub mod convert;
pub mod end_line;
pub mod fault;
pub mod fixed;
pub mod function_line;
pub mod line_kinds;
pub mod op_line;
pub mod partial_listing;
pub mod pcode_line;
pub mod proto_line;
pub mod reader;
pub mod space_line;
pub mod stack_line;
pub mod tables;
pub mod written;

pub use fault::{LineFault, TextFault, Why};
pub use partial_listing::PartialListing;
pub use reader::read_listing;
