//! Why an input is refused, for every program that reads a listing: the faults of the passes as one enum, and the words
//! that name them.
#![tactic(auto)]

mod message;
mod refusal;

pub use message::put_words;
pub use refusal::Refusal;
