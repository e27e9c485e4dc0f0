//! Nodes over constants, in code: the rule that folds them to the constant of their value.
//!
//! The value is the p-code operation's, as `bits_core` computes it. A division by 0 has none and stays as it is. Where
//! the widths of two constants don't agree as the node asks there is no such node, and so nothing is said of the word
//! that is made.
#![tactic(auto)]

pub mod folds;
pub mod operations;
pub mod values;

pub use folds::{fold_pair, fold_single};
