//! Which listings are run beside a C function, and why the others are refused.
#![tactic(auto)]

mod accepting;
mod tables;

pub use accepting::{Accepted, accept};
pub use tables::is_runnable;
