//! The code of a function as blocks of statements over variables, and what a run of it is.
//!
//! It is what passes have in common: no listing's op and no label is in it. A run carries out one statement a step, or
//! leaves a block; a statement does what it does in a C function. A call that ends a block whose exit is Stop doesn't
//! return, and every other call does, so that a code says by itself where its run ends.
#![tactic(auto)]

pub mod code;

pub use code::{Arm, Arms, Block, Blocks, Code, Exit, Variable, Variables};
