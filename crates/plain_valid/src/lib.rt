//! The C function of the plain lowering is a valid tree, has the signature that its listing asks for, and fits it: lemmas.
//!
//! The statements that the lowering makes are of a few kinds: a variable is assigned an expression, loaded from a ram
//! space or divided into, a word is stored, or a function is called. A call and the EXTRAOUTs behind it, which take what
//! it left in registers, are one kind, as an EXTRAOUT stands nowhere else. The exits are jumps, tests and returns, and a
//! block that ends in a call of a function that never returns has none. What holds of each kind, with what is known of
//! its parts, holds of every block (`proofs/EachKind.antt`, `proofs/Blocks.antt`): the expressions obey
//! their rules (`proofs/Shapes.antt`, `proofs/Expressions.antt`), the variables are those of the ranges or the locals
//! behind them, and a block that is named is one of the flow's. The word of a range is the concatenation of the
//! variables that it is made of. Each has a byte at least and a range at most 16, so the word's expression is at most
//! 16 deep; and where such a range is written, each of its variables is assigned a part (`proofs/Covers.antt`). Bytes of
//! the frame are such ranges, and an argument on the stack that has none is loaded from above the stack pointer.
//!
//! So each statement and each exit obeys its rule, mentions what the head has (`proofs/Suits.antt`) and fits the listing
//! (`proofs/Fit.antt`). The head declares what is called, by the prototypes of the listing (`proofs/Callees.antt`): so
//! the arguments and the target have the widths that are declared, and a call goes on where its callee is declared to
//! return, as the layout asks (`proofs/Laying.antt`). That lines and numbers are right then follows from the layout and
//! the naming of any code. Atoms that stand in their order are parameters in theirs, and the variables behind them the
//! locals (`proofs/Valid.antt`). The numbers that a text has in 64 bits, or in 32 where a parameter stands on
//! the stack, are a premise (`specs/Long.antt`).
#![tactic(auto)]
