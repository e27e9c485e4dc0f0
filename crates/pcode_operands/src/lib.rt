//! The run of p-code, carried out as it is defined.
#![tactic(auto)]

pub mod calls;
pub mod operands;
pub mod state;
pub mod writes;
