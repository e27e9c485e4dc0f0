//! A small graph of nodes by number, in which rules are found.
//!
//! A node may be seen as its value, as a constant, or as its op over what its inputs are seen as; a COPY among the inputs
//! is passed. What is seen at a node has the node's width, and, wherever the nodes' equations hold, its value
//! (`proofs/Values.antt`). So what the rule that `find_at` finds makes of a node has the node's width and its value
//! (`proofs/Kept.antt`).
#![tactic(auto)]

pub mod at_node;
pub mod node;
pub mod place;

pub use at_node::find_at;
pub use node::{Node, Op};
pub use place::Place;
