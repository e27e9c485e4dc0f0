//! What a program tells when it ends: one status for each kind of outcome, with the text or the line that goes with it.
//!
//! A call of a program comes to one outcome before anything is written: a text that is shown, a line that names why its
//! input is refused, or a failure that has a line of its own. `deliver` writes that text or line and gives the status. The
//! table (specs/Table) says, for each status, what was written whole and why; it is stated over `Why`, the reasons that a
//! program gives for its outcomes, so that it stands once for all programs. Where no fault was counted and what lies
//! outside is told, the status is the one that is due: the reasons are then stated of what was told and no longer of what
//! came of reading it, and only want of memory is left open.
//!
//! A line is written in two pieces, the program's name and the rest, since no memory is asked for: the two together were
//! taken whole, or a proper prefix of them was taken (proofs/Pieces).
#![tactic(auto)]

mod delivery;
mod fetching;
mod outcome;

pub use delivery::deliver;
pub use fetching::read_file;
pub use outcome::Outcome;
