//! The rules of sums, differences, products, bits, divisions by 1 and shifts, in code.
//!
//! A function a rule, with the rule as its first line. What it sees it sees by a `View`, so it serves trees and graphs;
//! Some is a right side of its rule for what is seen, and None says that no left side of it is seen. Most rules ask for
//! a constant on the right, which is looked at once: those take the constant in the place of the right operand.
//!
//! `sum_rule`, `opposite_rule` and `shift_rule` put the rules together, in the order of the table. They ask for operands in the order in which
//! the table names them; a caller asks twice where the operation commutes.
#![tactic(auto)]

pub mod constants;
pub mod shifts;
pub mod sums;

pub use shifts::shift_rule;
pub use sums::{opposite_rule, sum_rule};
