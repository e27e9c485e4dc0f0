//! The rules of the table, tried at a place.
//!
//! `find` looks at what stands there and asks the families for a node of that kind: first whether a constant on the left
//! is to change over, then the families in the order of the table, and where the operation commutes once more with the
//! operands turned. It gives the row and what its rule makes; None says that no rule of the table matches, whatever may
//! be seen there. A search takes constant time but for widths, which a tree computes.
//!
//! A constant on the left changes over before anything else is asked, so a rule that asks for a constant on the right
//! never has to look for it on the left, and which rule is found first doesn't depend on the order of two constants.
#![tactic(auto)]

pub mod forms;
pub mod orders;
pub mod roots;

pub use roots::{find, find_pair, find_single};
