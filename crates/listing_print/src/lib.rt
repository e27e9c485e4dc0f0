//! The canonical text of a listing.
#![tactic(auto)]

mod lines;
mod parts;
mod print;

pub use print::print_listing;
