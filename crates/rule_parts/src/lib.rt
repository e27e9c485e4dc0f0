//! The rules of parts of words, of words put together and of extensions, in code.
//!
//! A function a rule, with the rule as its first line. What it sees it sees by a `View`, so it serves trees and graphs;
//! Some is a right side of its rule for what is seen, and None says that no left side of it is seen. `part_rule` has the
//! rules of a node with one operand, and `concat_rule` those of a node with two.
//!
//! Several rules come to a part of a letter, or to the letter where that part is the whole of it: `piece` makes that
//! choice for them all.
#![tactic(auto)]

pub mod concats;
pub mod looks;
pub mod singles;

pub use concats::concat_rule;
pub use singles::part_rule;
