//! Functions in SSA form: a graph of operations with the predecessors and the exits of its blocks.
//!
//! What such a function means is said once, by `line_of`: an op stands for a simple statement over variables that are
//! numbered by values, so an SSA function is a code of blocks whose edges rename variables. A MULTIEQUAL is no statement,
//! but what an edge renames, and an entry value is a variable that has the entry's word as the run begins.
//!
//! Why it is strict and formed after each edit: the form is told by an outline, which has of each op its role, its width
//! and the widths of its inputs, but not which values it reads. So an edit that exchanges values of one width leaves the
//! outline as it is. Paths are those of the blocks, which no edit changes, and what is available is told by the block
//! that each op stands in.
#![tactic(auto)]

mod drops;
pub mod form;
pub mod function;
pub mod worked;

pub use form::{Arm, Arms, Parts, Predecessors, SsaBlock, SsaBlocks, SsaExit};
pub use function::SsaFunction;
