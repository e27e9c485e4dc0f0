//! The subset of C that is printed: its tree, and what a run of it is.
//!
//! A run is that of flat code (`specs/Flat.antt`): the body's steps in the order of its text, where an `if`, a loop, a
//! `switch`, a `break` and a `goto` are tests and jumps to positions. One step carries out one simple statement or one
//! jump (`specs/Do.antt`, `specs/Step.antt`), so that C runs and p-code runs are machines of one kind and can be related
//! step by step. What is known of statements is folded over the tree, a layer at a time: values, widths and depths of
//! expressions, the pieces of flat code, the rules of a valid tree.
//!
//! `checked` tests validity in one walk over the tree and never in pairs, by the first of each kind. A name, an address or
//! a storage that stands twice is found by the table of where each is listed first: item i is new exactly where the table
//! gives i for its key (`specs/Firsts.antt`, `proofs/Firsts.antt`). The case values of a switch are distinct where each
//! one enters a set anew (`proofs/Switches.antt`). Variables, callees and labels stand in the order of their first
//! appearance where a walk that meets one after the other never meets a number above the next new one
//! (`specs/Mentions.antt`), so that three counters do in place of a table.
#![tactic(auto)]

mod body;
mod callees;
mod cases;
pub mod numbering;
mod param_decls;
mod params;
mod rules;
pub mod shape;
pub mod tree;
pub mod worked;

pub use callees::CalleeDecls;
pub use numbering::Next;
pub use param_decls::ParamDecls;
pub use rules::{checked, valid};
pub use shape::Shape;
pub use tree::{
    ArithmeticOp, Arm, Arms, Body, CFunction, CName, CalleeDecl, CompareOp, CountOp, DivisionOp,
    Expr, Exprs, ExtendOp, Local, Locals, OverflowOp, Param, ShiftOp, SignedCompareOp,
    SignedDivisionOp, StatementDivision, Stmt, UnaryOp, Values, Widths,
};
