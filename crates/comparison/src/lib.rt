//! How the traces of two runs compare.
#![tactic(auto)]

mod ends;
mod events;
mod fronts;

pub use fronts::{Comparison, compare, put_comparison};
