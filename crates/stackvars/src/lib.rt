//! The ranges of storage that become variables.
//!
//! Atoms are the coarsest ranges such that each access is a whole number of them, none of them in part inside an argument
//! or a kept range: they reach from one end of an access, of an argument or of a kept range to the next one. What accesses
//! the frame is given: the accesses of frame variables, which lie near the stack pointer's entry word.
//!
//! They are found by one sweep. Both ends of each access, of each argument and of each kept range become marks of one line,
//! which has the register space, past all its ends the unique space, and past all of that one's the frame, with so much room
//! before the stack pointer's entry word that no offset is negative there. The mark where an access begins says how far the
//! access goes. The marks are sorted, and a walk over them carries the last mark and how far the accesses so far go: from
//! one mark to the next there is an atom exactly where that is past the last mark. So it takes n log n steps.
#![tactic(auto)]

mod accesses;
pub mod cases;
mod collected;
mod cuts;
mod fault;
mod ranges;
mod sweep;

pub use cuts::atoms;
pub use fault::AtomFault;
