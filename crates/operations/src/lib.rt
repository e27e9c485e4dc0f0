//! The words of the operations, in both ways.
//!
//! Each operation has one word, and no two have the same. All but one kind stand in one list, each with its word; the
//! word of an operation on floating point numbers is `FLOAT_` and more letters, and any letters will do. So a word is
//! read by what it begins with, or by a walk over the list up to the operation whose word it is. That this finds
//! exactly the operation that has the word is proved on `opcode`: the walk finds each word of the list at its own place,
//! since it computes to no earlier one, and no word of the list begins `FLOAT_`.
#![tactic(auto)]

mod operation;
mod reading;
mod words;

pub use operation::{OPERATIONS, Operation};
pub use reading::opcode;
