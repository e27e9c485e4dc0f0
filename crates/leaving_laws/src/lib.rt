//! What the way out of SSA stands on.
//!
//! A run of a function in SSA form never ends Undefined. What is live is told by paths to a read; that each path to a
//! read passes the op of its value is the function's strictness. So where a value is live each path has passed its op,
//! or it is an entry value, or a MULTIEQUAL of the block (`proofs/Strict.antt`): an op that isn't passed yet would have
//! to stand between here and the read, and then its value isn't live here. At the entry nothing was passed. So what is
//! live there is an entry value, and has a word.
//!
//! MULTIEQUALs become copies: each has a fresh variable beside its own. A block ends with `fresh = input` for those of
//! each block that it leads to, and begins with `own = fresh` (`specs/Copied.antt`). No fresh variable is read but
//! there. So copies of one edge neither read what another one wrote, as in a swap, nor harm the other way out of a test.
//! Strictness counts an input as read at the end of the block from which it comes; so each input has a word there, even
//! of a MULTIEQUAL that nothing reads (`proofs/Known.antt`).
//!
//! In the code each value is seen all along as one expression: its constant or its variable (`specs/Left.antt`). An
//! assignment of a constant is left out, as nothing reads its variable (`proofs/Placing.antt`).
#![tactic(auto)]

pub mod shows;
