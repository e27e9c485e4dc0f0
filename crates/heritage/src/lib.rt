//! SSA functions of codes of blocks, by Braun's method: what the construction keeps while it runs.
//!
//! All blocks are filled before any MULTIEQUAL has inputs. A read of a variable that its block doesn't know makes what the
//! block begins with: an entry value in the entry, and else a MULTIEQUAL that waits. Then each that waits is given one
//! input for each predecessor, which may make others wait. At the end each whose inputs are all one value or itself is
//! replaced by that value.
//!
//! `rows` has the value of each variable at the end of each block as far as it is filled. Rows are dense for the first
//! variables, the parameters, which most blocks know, and sparse for all others: a temporary is known in a block or two,
//! so that dense rows would take blocks times statements.
#![tactic(auto)]

pub mod rows;
