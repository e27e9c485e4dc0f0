//! The reached places of a listing, their faults, and the blocks that they make.
//!
//! The reached places are the least set that holds the function's first place and, with a place, each one that an edge leads
//! to. It is found by a worklist. All places stand in rising order in a list, so that a place goes by its number and is found
//! by halves. A place that is marked for the first time is put to the work; each one taken from the work has the ends of its
//! edges marked.
//!
//! Why the marks are the set: whatever is marked is reached, since marks spread along edges alone. At each turn a marked place
//! is still in the work, or all its edges lead to marked ones; so once the work is empty the marks hold the first place and
//! are closed under edges, and the least such set lies within them. It ends, since each place is put to the work once: the
//! places not yet marked and the length of the work together fall at each turn.
//!
//! Faults are looked for in the reached places alone, from the least one on. Blocks begin at the first place and where a
//! reached branch leads, and each goes on by the one way out of its last place until the next block begins or a way ends.
//! They are cut in one pass over the places, as many as there are beginnings.
#![tactic(auto)]

pub mod answer;
mod blocks;
mod edges;
mod faults;
mod marks;
mod places;
mod reach;
mod starts;

pub use answer::{FlowFault, follow};
