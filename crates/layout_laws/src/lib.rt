//! The C function of a code with labels and gotos shows what the code shows; it is a valid tree where the code's statements
//! suit the head, and it fits a listing where they do.
//!
//! The flat code of the function is the lines of the blocks one behind another (`proofs/Pieces.antt`), each block's from
//! a position that its label, where it has one, leads to (`proofs/Positions.antt`).
//!
//! It is right by a simulation with a ranked wait (`proofs/Follows.antt`, `proofs/Ends.antt`). The run of the code stands
//! in a block in front of some statements; the C run stands where the flat code goes on with the lines of these
//! statements, of the block's exit and of the blocks behind it. A statement is a step of both. An exit is a return, a
//! test or a goto, which leads to where the lines of the block are that it names, since every block that a goto names
//! has a label. Where an exit leads to the next block there is no goto, and the C run stands still; the number of
//! blocks that follow is the rank, which falls then, so it can't do so for ever.
//!
//! What is mentioned, the rules and the spaces that are named go line by line (`proofs/Covered.antt`, `proofs/Obeys.antt`,
//! `proofs/Fits.antt`): labels, gotos and exits are looked at here, once, and a lowering shows its statements alone.
#![tactic(auto)]
