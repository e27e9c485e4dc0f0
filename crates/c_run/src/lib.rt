//! The run of a C function on an entry, step by step.
//!
//! A function runs as flat code, a list of simple steps and jumps between positions (`flatcode`). A state has the words that
//! its variables hold, in a table by their numbers (`cvalue`), and the world that the runs of p-code have too: memory, the
//! answers left, what was recorded, and the end. A map in which a byte that isn't there is 0 stands for memory, so each call
//! of this crate says that what its state stands for has become what the definition makes of it.
//!
//! Why that is the defined run: a statement evaluates its operands first, where an unassigned variable ends the run before
//! anything is written, and then has one effect on the world; each effect is that of `run_world`, whose contract is the
//! definition's. A jump changes the position alone. The loop's invariant is that the steps left, made from the state reached,
//! give what all of them give from the first state, and after an end nothing changes.
//!
//! Whether a function fits a listing (`fits`) is tested once, before the run: its parameters' storages lie inside their
//! spaces, and each load and store names a ram space. So no step has to test it.
#![tactic(auto)]

pub mod calls;
pub mod context;
pub mod fit;
pub mod local;
pub mod named;
pub mod run;
pub mod simple;
pub mod start;
pub mod step;
pub mod words;

pub use fit::fits;
pub use run::run_c;
