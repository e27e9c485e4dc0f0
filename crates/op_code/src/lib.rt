//! Ops as statements: what stands for an op, in memory's terms too, and the locals that it needs.
//!
//! An op's operands come first. A constant is itself, and a range is the word of its variables; a direct range of
//! memory is loaded to a local of its own, in the order of the inputs. Then comes the statement that does what the op
//! does, over the words that were read, and assigns its output's variable; where the output is a direct range of
//! memory it is a local that is stored then, and where it is a range of several variables a local whose parts these
//! are assigned. A division is an expression by a constant that lets it have a value, and else the statement that
//! ends the run at 0. A call reads its prototype's arguments. Behind it each variable of registers that it didn't
//! spare takes what the callee left there, then the result's variables are assigned their parts, and last the stack
//! pointer is popped.
//!
//! Bytes of the frame are ranges of variables too, with the number of the first ram space, which no range of
//! registers has, so that they have covers, words and parts as those do. `src/frame.rt` looks up which accesses of an
//! op are those of frame variables, by its place and the access's number: a LOAD of one is the word of its range, a
//! STORE assigns it, and an argument on the stack is its word. All other arguments on the stack are loaded above the
//! stack pointer.
//!
//! The statements of an op and its locals are made by one definition (`specs/Made.antt`), so that there are as many
//! locals as statements name.
//!
//! No two variables' ranges have a byte in common, and a range that an op names is a whole number of them, one behind
//! the other without a gap: its cover (`specs/Cover.antt`). The definition asks at each byte of the range which
//! variable's range begins there, so any order of the table will do, and any row of variables that fills the range is
//! its cover (`proofs/Rows.antt`). A cover of one is the variable itself. The word of several is the concatenation of
//! theirs, the most significant one first: that is the last one where the space has the little end first, and else the
//! first one (`proofs/Reading.antt`). A word is written to several by way of a local, since what is computed may read
//! the variables that are assigned. With each of these more bytes of the word stand in the range, and with the last one
//! it is the whole word (`proofs/Writing.antt`).
//!
//! It is right over any memory whose acts are those of bytes, as far as they are seen (`proofs/Ops.antt`): where each
//! variable holds its range's word, the memories look the same and both hold bytes, the statements lead to such states
//! again, or to the same end. A local is no range, so it changes nothing that is asked of the variables; and
//! where an op ends the run before its last statement, the statements behind do nothing.
//!
//! The code makes the lists of the definition by adding to those that there are: what is read, the statement and what
//! is stored go behind a body, and locals behind the variables, whose count is the next one's number. Each function
//! adds a whole of the definition, an operand, a pair of them, an output or an op, so that its contract is the
//! definition's name and that it `Adds` it (`specs/Adds.antt`). The variables that a range is made of are found in a
//! table of where their ranges begin, made once for all ops (`specs/Numbers.antt`), by a look-up for each byte of the
//! range. A further operation is a case of `op_made`, of the form in `specs/Form.antt`, of `proofs/Ops.antt` and of
//! `src/statements.rt`.
#![tactic(auto)]

mod calls;
mod covers;
mod frame;
mod left;
mod locals;
mod memory;
mod outputs;
mod reads;
mod stack;
mod statements;
mod table;
mod words;

pub use covers::Piece;
pub use frame::{FrameTable, OwnAccesses, frame_range, stack_offset};
pub use left::{LeftTable, Leftover};
pub use reads::read;
pub use statements::add_op;
pub use table::Table;
pub use words::range_word;
