//! Printing a listing so that reading the text gives the listing again.
//!
//! The proof follows the reader, not the printer. For what the lines so far have said it keeps the canonical lines that
//! would say the same, and shows that each line without a fault adds one canonical line at their end: that line is read
//! as a form whose tests are those of the line itself, and after which the same is said. So canonical lines and lines go
//! in step through the whole text, and at its end the canonical lines are what is printed.
//!
//! What a line's parts are once they are printed goes by parts: a name, a number, a range is printed as a part without a
//! space, and read back as itself, a constant in the form in which it is kept.
#![tactic(auto)]

mod again;

pub use again::{canonical_text, print_listing};
