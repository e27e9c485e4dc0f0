//! The text of an SSA function.
#![tactic(auto)]

mod heads;
mod order;
mod places;
pub mod worked;
