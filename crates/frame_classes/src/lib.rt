//! Frame variables: the classes that accesses of the frame make by shared bytes, below every offset that escapes.
//!
//! Accesses that share a byte are in one class, and so are those that a chain of such joins. Where all accesses are sorted by
//! their offsets, the bytes of a class lie in one stretch without a gap, its run: a walk over them carries the run so far,
//! and the next access joins it where it begins before the run ends. An access that begins where the run ends shares no byte
//! with it, nor does any that comes later: a new run begins (`src/runs.rt`). So each access lies in one run, no byte lies in
//! two, and from a run's first access a chain leads to an access on each of its bytes: the runs are the classes
//! (`proofs/Whole.antt`).
//!
//! A run is a variable where it ends at or before the least offset that escapes. Runs stand one behind the other, so the
//! variables are the runs in front, and an access is one of a variable's where it begins before the first run behind them
//! (`src/frame_variables.rt`). With the sort it takes n log n steps.
#![tactic(auto)]

mod frame_variables;
mod runs;

pub use frame_variables::{Classes, variables};
