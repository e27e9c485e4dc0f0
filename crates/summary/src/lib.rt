//! The numbers of a listing and of its C: how many ops, blocks and atoms, how many gotos and bytes, and their five lines.
//!
//! The gotos are counted in one walk over the tree, which carries what was counted so far. A count past 64 bits, which no
//! tree and no listing comes to, is told as want of memory.
#![tactic(auto)]

mod counting;
mod counts;

pub use counting::{gotos_in, ops_in};
pub use counts::{Counts, counts_text, summary_text};
