//! The expressions that stand for the values of p-code's operations.
//!
//! Each operation of words has a node, or a node over a node, over the expressions of its inputs;
//! `proofs/Operations.antt` has it that its value is the operation's value, at each width that an op may have. Three
//! kinds have more to them. A part of a word that goes past the word's top is what is left of it, extended, or 0
//! (`proofs/Parts.antt`). A division is an expression only by a constant that lets it have a value: not by 0, and a
//! signed one not by all ones, which is the one divisor whose quotient may not fit (`proofs/Divisions.antt`). The
//! offset of a load or store counts words of its space, so its byte address is a product, in the wider of the offset's
//! width and the space's, so that it is cut only where the space's addresses are (`proofs/Addresses.antt`).
#![tactic(auto)]

mod address;
mod division;
mod nodes;
mod operation;
mod part;

pub use address::address_node;
pub use division::{divides_by, division_node, statement_of};
pub use nodes::{constant, width_by};
pub use operation::{binary_node, unary_node};
pub use part::part_node;
