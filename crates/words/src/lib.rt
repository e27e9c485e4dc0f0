//! What the words of the command line ask for.
//!
//! The command is `pcode2c [--stage WORD] [--gen NUMBER] [FILE]`. `clap` reads the words, by its own definition of what a
//! simple command takes. What it doesn't check is checked here: that WORD names a stage, that NUMBER is one, and that
//! `--gen` stands beside nothing else.
//!
//! `clap` says that it takes what its definition takes, and by which kinds of errors it fails elsewhere. That it takes
//! nothing else follows (`proofs/Takes.antt`): no step of a parse is without a kind of error unless it passes.
#![tactic(auto)]

mod number;
mod request;
pub mod worked;

pub use request::{Request, Stage, read_words};
