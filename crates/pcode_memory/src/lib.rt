//! The memory of the p-code run: bytes, hidden bytes and spoiled ones, and the effects on its world.
#![tactic(auto)]

pub mod context;
pub mod effects;
mod frame;
pub mod whole;

pub use context::PcodeContext;
pub use effects::{store, take_answer};
pub use whole::Whole;
