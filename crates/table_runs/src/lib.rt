//! What a run through a slice of a jump table holds, over any memory: lemmas, no code.
//!
//! A tree has a word, by the words of ranges as the slice is entered and by what its LOADs give (`specs/Words.antt`). By
//! bytes: one that the slice hasn't written is the entry's, and a written one is that byte of the word of its writer's
//! tree (`proofs/Reading.antt`). A range is cut into parts of one writer each, a part holds a part of the writer's word,
//! and the parts' words together are the range's (`proofs/Parts.antt`, `proofs/Sound.antt`, `proofs/Together.antt`). So
//! a range holds the word of its tree. And what the form says that a tree gives where x has its word is the tree's word
//! (`proofs/Giving.antt`). It never looks at an operation's arithmetic.
//!
//! So each op keeps what is known of the bytes, in a run over any memory (`proofs/Making.antt`, `proofs/Stepping.antt`).
//! A run that comes in by the slice's first place and falls through its CBRANCH has a guard of 0 (`proofs/Walking.antt`),
//! so x's word passes (`proofs/Guarding.antt`, `proofs/Leading.antt`), and the run goes on at the place of x's word. A
//! range that has x's tree holds x's word (`proofs/Landing.antt`).
#![tactic(auto)]
