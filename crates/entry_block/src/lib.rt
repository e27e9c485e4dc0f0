//! A code that begins in a block to which no edge leads.
//!
//! In SSA form a value that a function is entered with is defined at its entry, once, and a MULTIEQUAL stands where
//! several edges meet. Where an edge leads back to the entry's block both would be due at one place: the entry would be
//! one more predecessor, which is no block. So such a code begins in an empty block of its own, directly before the one
//! where it began, and jumps there. The numbers of the blocks from the entry on are one more than before.
//!
//! The code shows what it showed (`proofs/Shows.antt`): its run is the old one under other numbers, after one step. What
//! is asked of a code, and what is live as it is entered, stays (`proofs/Keeps.antt`).
#![tactic(auto)]

pub mod entered;
pub mod exits;
pub mod theorems;

pub use entered::begin_apart;
