//! Code of blocks as a C function with labels and gotos.
//!
//! The blocks stand in their order. A goto leads to a block only where another one follows, or where it is the arm of a
//! switch, and only a block that a goto names has a label. One walk over the exits finds the named blocks, and one over
//! the blocks, which are taken apart from the first to the last, moves each statement into the body: nothing is copied.
//! The cases of a switch are sorted by their values, and one walk over them puts each with those of its block; so an arm
//! stands where the first one of its cases does, by its least value.
//! The body has the code's own numbers for variables, and a block's number for its label; a last step, which all that
//! makes bodies shares, numbers them along the text.
//!
//! The head declares the functions that the code calls, each address once and in the order of the first calls, with the
//! widths that the listing's prototypes say.
#![tactic(auto)]

mod branches;
mod declarations;
mod function;
mod head;
mod lines;
mod named;

pub use declarations::callees;
pub use head::{laid_out, plain_head};
