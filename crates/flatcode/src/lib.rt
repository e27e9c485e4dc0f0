//! The flat code of a C function, as steps that borrow from its tree.
#![tactic(auto)]

pub mod code;
pub mod draft;
pub mod labels;
pub mod spans;
pub mod step;

pub use code::flat;
pub use step::{Case, Cases, FlatCode, Step};
