//! Blocks of statements whose edges rename variables, and the lemma by which a pass over blocks keeps their meaning.
//!
//! In a code of blocks no edge renames; in a function in SSA form an edge gives each MULTIEQUAL its input, all at once.
//! Both are `Blocks` (`specs/Run.antt`), and their run has the statements that are left of a block, so that a statement
//! that is left out shifts no place. What passes ask of them, live, interfering, strict, is in `specs/Live.antt`, by paths.
//!
//! A pass relates two such runs by one lemma (`specs/Follow.antt`, `proofs/Follow.antt`). At each point each variable of
//! the source that is needed is seen through an expression over the target: where it has a value, the expression has the
//! same. Statement by statement both do the same, or the source alone assigns, or the target alone; over an edge the map
//! fits both renamings. Which variables are needed is for the pass to say, so that a chain of dead assignments goes at
//! once. Conditions speak of values in states that the runs come to, and `proofs/Steps.antt` has the usual ways to show
//! them. What comes of it is that both show the same, and that the target is defined where the source is: dead code
//! (`Dead`), other names (`Merge`), MULTIEQUALs as copies (`Leave`).
#![tactic(auto)]

pub mod exits;
pub mod laws;

pub use exits::{copy_exit, exit_with, visit_exit};
