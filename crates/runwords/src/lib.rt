//! What the command that runs both machines is asked for, the files that it reads, and what it tells.
#![tactic(auto)]

mod files;
mod gathering;
mod plan;

pub use files::{Inputs, fetch};
pub use gathering::{Gathered, gather};
pub use plan::{Plan, read_words};
