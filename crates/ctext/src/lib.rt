//! The text of a C function.
//!
//! The text is defined by folds over the tree (`specs/`), and the printer is proved to put exactly that behind what `out`
//! has. The fold of an expression gives four texts at once (`Form`): alone, as an operand in its unsigned and in its signed
//! form, and as a condition. So each part decides by itself where its parentheses and casts stand, and nothing has to look at
//! what is around it. The printer is told by a mode which of the four it is to print, and builds no text in between.
//! The fold of a statement gives its lines by the spaces before them, and whether anything behind it is reached: the last
//! says which arms of a switch end in a break.
#![tactic(auto)]

pub mod digits;
pub mod expressions;
pub mod functions;
pub mod names;
pub mod simple;
pub mod statements;

pub use functions::print_c;
