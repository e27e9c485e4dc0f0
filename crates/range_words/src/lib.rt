//! Ranges of the register space, of the unique space and of the frame, and variables that hold their words.
//!
//! A frame variable's bytes stand by their offset from the stack pointer's entry word. They are ranges beside those of
//! registers: their space has the number of the first ram space, which no range of variables has else, and their offsets
//! are counted from half the space below the entry word, so that a range across it doesn't wrap (`specs/Own.antt`). So
//! one relation between variables and bytes, one law of reading a range and one of writing it serve for both
//! (`proofs/Variables.antt`, `proofs/Own.antt`).
#![tactic(auto)]
