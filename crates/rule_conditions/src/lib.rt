//! The rules of what is 0 or 1, of comparisons, of carries and of borrows, in code.
//!
//! A function a rule, with the rule as its first line. What it sees it sees by a `View`, so it serves trees and graphs;
//! Some is a right side of its rule for what is seen, and None says that no left side of it is seen. `boolean_rule` and
//! `comparison_rule` put the rules together, in the order of the table, for operands in the order in which the table
//! names them; a caller asks twice where the operation commutes. A constant on the right is looked at once.
//!
//! Where a rule names a letter twice, each pair of places is asked whether it shows one variable or one constant, and
//! so no two expressions are ever compared node by node.
#![tactic(auto)]

pub mod booleans;
pub mod comparisons;
pub mod letters;

pub use booleans::boolean_rule;
pub use comparisons::comparison_rule;
