//! Lists that run through nodes on the heap by raw pointers: doubly linked, each node in one list at most.
//!
//! A node has links to the one before it, to the one after it, and to the head of its list, so that it is taken out
//! of a list, or put in at either end or before another node, in a few writes, whatever the lengths. A node of no
//! list stands in the list of spare nodes, so that a move of a node is one removal and one insertion, and no edit
//! takes memory.
//!
//! Why an edit of one list leaves the others alone: all lists together list each node at most once. The links that an
//! edit writes are those of the node itself, of its neighbours, and of the head, and these stand in no other list. So
//! each edit has a local relation (`detached` and `attached` of the links, which are functions of numbers), and one
//! lemma for each lifts it to all lists: what the links say, `Rep`, is kept, with one list changed (`proofs/Detach`,
//! `proofs/Attach`, `proofs/Moves`).
//!
//! Above this crate the lists are a `Family`: the values that the nodes hold, the list of each key, and the spare
//! ones.
#![tactic(auto)]

pub mod list_arena;
pub mod lists;
pub mod node;
pub mod walk;

pub use lists::Lists;
pub use node::{Head, Node};
pub use walk::Walk;
