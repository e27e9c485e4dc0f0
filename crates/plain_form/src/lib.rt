//! A supported listing whose ops obey their rules, with its frame, has the form that the plain lowering asks for: lemmas.
//!
//! What the reader and the rules of operations promise is collected first (`proofs/Read.antt`): each input that isn't
//! an address and each output has its size and ends within its space, the function's result is a range of registers,
//! and each ram space is one that a statement can name (`proofs/Memory.antt`). A supported op accesses no more than
//! these, so each range that is accessed has at most 16 bytes and lies inside its space (`proofs/Accessed.antt`).
//!
//! The lowering's variables are the atoms. An atom lies in a range that is accessed, so it is as narrow and lies inside
//! too; and of two atoms in their order the second begins where the first one ends or later, since it begins at a cut
//! (`proofs/Table.antt`). From cut to cut the atoms fill each range that is accessed, so it has a cover, which is all
//! that the form of an op asks of a register or unique range (`proofs/Plain.antt`).
//!
//! The accesses of the frame have 1 to 16 bytes too, and begin near the stack pointer's entry word. Half the first ram space
//! is more than they need on either side, so counted from half the space below that word each range of the frame lies inside
//! the space and none wraps (`proofs/Halves.antt`). Such a range has a cover as any other has, and what an op accesses of
//! the frame by a number is as wide as what it loads, stores or passes by that number, since the frame lists what the op
//! reaches (`proofs/Owned.antt`).
#![tactic(auto)]
