//! The lowest layer of a listing's text: a text as lines, a line as parts, and a part as a name, a number or bytes.
#![tactic(auto)]

pub mod lines;
pub mod parts;
pub mod tokens;

pub use lines::split_line;
pub use parts::{first_part, next_part};
pub use tokens::{decimal, digit, hexadecimal, is_name, pairs};
