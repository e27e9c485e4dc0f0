//! A graph of operations: blocks with lists of ops, whose inputs are slots that read the values of other ops. It may
//! have cycles.
//!
//! It is three families of lists: the ops by their blocks, the slots by their ops, and the slots by the values that
//! they read. A value has the number of the op that makes it. One slot is a node of the second family and, under the
//! same number, a node of the third. So an input is set by one move in the third family, the uses of a value are a
//! list of it, and both are exact at any time without a search.
//!
//! Why uses are exact: `Good` says that a slot reads a value if and only if an op has it as an input, and that it
//! holds its place among the op's inputs. Each edit is one or two moves of nodes, and a lemma says for each that
//! `Good` holds again and how the graph that the families stand for has changed (`proofs/SlotEdits`,
//! `proofs/OpEdits`, `proofs/MoveAll`, `proofs/More`). Contracts speak of that graph alone: a map of ops, lists of
//! blocks, lists of uses.
//!
//! Edits take no memory. Room is made before, by `reserve`; an op or a slot that is given up is spare again. Where an
//! allocation is refused, the graph is as before.
#![tactic(auto)]

pub mod adds;
pub mod code;
pub mod edits;
pub mod graph;
pub mod growth;
pub mod ids;
pub mod reads;
pub mod slots;
pub mod walks;

pub use code::{Body, Code};
pub use graph::OpGraph;
pub use ids::{BlockId, OpId, Slot, ValueId};
pub use walks::{BlockOps, OpInputs, Uses};
