//! Reading the text of a C function back: one text has one tree, and no other text is read.
//!
//! The reader parses, prints and compares. The parser goes from left to right and is lax: it takes leading zeros, needless
//! parentheses, any indentation and casts of any width. What it gives is then checked, printed again, and compared with the
//! text byte by byte (`read`).
//!
//! So soundness is free: what is read is a valid tree with exactly this text, whatever the parser does. Completeness is the
//! work: the parser takes the text of each valid tree and gives that tree. Two valid trees with one text are both what the
//! parser gives of it, so they are the same (`one_tree`).
//!
//! A parser is a function on lists of bytes, from what stands here to what was read and what follows it (`specs/`), and the
//! code gives just that unless memory runs out (`Gives`). Completeness is proved of these functions, layer by layer of the
//! tree: the text of a part, before any byte at which a reader stops, is read as that part, and its first bytes are not
//! those of anything else that may stand there. A reader is given the reader of what is one level inside, so that levels
//! count down: an expression of depth 64 takes at most 200 of them, a body at most 256.
#![tactic(auto)]

mod expressions;
mod functions;
mod item;
mod made;
mod names;
mod read;
mod rights;
mod statements;
mod words;

pub use item::CFault;
pub use read::{one_tree, read_c};
