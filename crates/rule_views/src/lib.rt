//! What a rewrite rule sees, and what it makes.
//!
//! A rule looks at a place: whether a constant stands there, a node with one operand or a node with two, how wide it
//! is, and whether two places show one variable or one constant. A `View` answers that, of a tree or of a graph, and
//! its ghost member `Sees` says which expressions may stand for what is at a place. So a rule in code is written once,
//! its contract speaks of expressions alone, and a match takes constant time at each node.
//!
//! What a rule makes is a standing operand, a constant, or one node over such.
#![tactic(auto)]

pub mod looks;
pub mod nodes;
pub mod row;
pub mod tree;
pub mod view;

pub use looks::{arithmetic, beside_constant, cancels, folded, is_sum, operands_of, unary, zero};
pub use nodes::{Pair, Single};
pub use row::Row;
pub use tree::Tree;
pub use view::{Arg, Found, Made, View};
