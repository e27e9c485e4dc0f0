//! Expressions and simple statements by their parts.
//!
//! A node is a constant, a variable, or has one operand or two (`specs/Exprs.antt`): what holds of all expressions is
//! proved by these four, and the fourteen kinds are gone through once for each thing that is said of a node. A simple
//! statement is what it does, a target and arguments (`specs/Stmts.antt`). It evaluates its arguments, does what it does
//! with their widths and values alone, and so comes to an end, or to a value for the target, register bytes and a world.
//! So a law of passes, as that a statement without an unneeded target does the same, speaks of parts and has no case by
//! kinds.
//!
//! The code has one walk that makes an expression anew, with something in the place of each variable (`Places`): itself,
//! which gives a copy, another name, or an expression of a table. Another walk visits each read (`Visitor`).
#![tactic(auto)]

pub mod equal;
pub mod exprs;
pub mod laws;
pub mod places;
pub mod stmts;
pub mod visits;

pub use equal::same;
pub use exprs::{copy, with_all};
pub use places::{Names, Own, Places, Replaced};
pub use stmts::{changed, copy_stmt, renamed};
pub use visits::{Visitor, visit_expr, visit_exprs, visit_stmt};
