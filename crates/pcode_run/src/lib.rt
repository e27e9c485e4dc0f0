//! The run of p-code, step by step, carried out as it is defined.
//!
//! The definition runs over functions: bytes by space and offset, of all spaces at once. Here a map stands for each such
//! function, in which a byte that isn't there is 0, and each call of this crate says that what its state stands for
//! (`state_of`) has become what the definition makes of what it stood for before. So a step here is the defined step, and n
//! steps are n of them: the invariant of the loop is that the steps left, made from the state reached, give what all n give
//! from the first. After an end the defined step changes nothing, which is why the loop may stop there.
//!
//! One function stands for each kind of op. What it rests on, that operands lie inside their spaces and have 1 to 16 bytes,
//! follows from the listing's form and the rules that its ops obey (`proofs/Obeying`), so that nothing is tested again while
//! it runs. That a frame's accesses lie in the first ram space is a condition on the frame, tested once by `lies_in_ram`.
#![tactic(auto)]

pub mod accesses;
pub mod branches;
pub mod callees;
pub mod calls;
pub mod ends;
pub mod framing;
pub mod inputs;
pub mod listing_run;
pub mod places;
pub mod run;
pub mod step;
pub mod values;

pub use framing::lies_in_ram;
pub use listing_run::{NoRun, run_listing};
pub use run::run_p;
