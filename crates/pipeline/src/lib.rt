//! The product from bytes to text: the passes in their order, the verdict, and the top call.
//!
//! `decompile_words` reads the words and the input, comes to one outcome and delivers it. `decompile` is the product itself:
//! `accept` finds the first fault of an input or its listing with blocks and atoms, `lower` makes the C function of a
//! listing that is accepted, `print_c` its text.
//!
//! That the text means what the listing means is proved of definitions and not of loops: each pass makes what its function
//! in specs/ says, each of these functions has a theorem in its own crate, and proofs/Keeps joins these links to one two-way
//! run from the listing to the function. specs/Verdict says which inputs are accepted, why others are refused and what may
//! be printed; an input is never both accepted and refused (proofs/Verdicts).
#![tactic(auto)]

mod generated;
mod message;
mod outcome;
mod passes;
mod request;
mod top;
mod verdict;

pub use generated::generated_numbers;
pub use outcome::work_out;
pub use passes::{decompile, lower};
pub use request::{Form, Wanted, asked_for};
pub use top::decompile_words;
pub use verdict::{Accepted, accept};
