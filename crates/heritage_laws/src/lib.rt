//! When a function in SSA form stands for a code of blocks, and what follows from it.
//!
//! A certificate has, at the beginning and at the end of each block, a table of which value of the function each variable
//! of the code has, as far as that is known (`specs/Certificate.antt`). From the one table to the other the ops of the
//! block do what its statements do, and over each edge the tables fit: what a variable has behind the edge it has before
//! it, but for the MULTIEQUALs of the block, which have their input for that edge.
//!
//! Strictness is by induction on paths: at each point of a path every value of the table was passed. At the entry these
//! are entry values; an op reads what the table has, and is passed itself when the table gets it; and over an edge a
//! value is a MULTIEQUAL of the block or was passed before. So what an op reads was passed, on every path.
#![tactic(auto)]

pub mod shows;
