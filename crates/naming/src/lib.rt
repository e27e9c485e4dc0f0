//! Variables, callees and labels numbered by where a body mentions them first.
//!
//! Whatever makes a body numbers variables and labels as it likes, and leaves lines out, moves them and merges them. A text
//! has one form only where these are numbered along it, so this is the last step. One walk over the body lists what it
//! mentions, each once, in the order of the text; a second one makes the body again, with a number's place in its list for
//! the number. Parameters come first and keep their numbers. A callee goes by its address, so that a call stays as it is,
//! and only the list of the declarations is made.
//!
//! A number is looked up at each mention, so the places of variables and labels stand in tables by number, and those of
//! callees, whose addresses are large, in a map. What isn't listed has a place too, behind all that is, so that renaming
//! never gives two numbers one name: that is why the new body shows what the old one shows, step by step.
#![tactic(auto)]

mod firsts;
mod head;
mod note;
mod order;
mod rename;
pub mod worked;

pub use firsts::{Addresses, Numbers};
pub use head::{Head, named_function};
pub use order::Order;
pub use rename::{NamedBody, named};
