//! Both machines on a stated entry: the inputs, the runs, the traces, and the top call.
#![tactic(auto)]

mod input_fault;
mod judging;
mod reading;
mod top;

pub use input_fault::{InputFault, fault_line};
pub use judging::judge;
pub use reading::{Parsed, parse};
pub use top::runboth_words;
