//! The value of an expression of a C function, by what its variables hold. Only the making of the variables takes memory.
#![tactic(auto)]

pub mod operations;
pub mod value;
pub mod variables;

pub use variables::Variables;
