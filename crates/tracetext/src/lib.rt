//! The text of a trace: a line for each event, and one for how the run goes on or ended.
#![tactic(auto)]

mod text;

pub use text::put_trace;
