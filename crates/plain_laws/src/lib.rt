//! The plain lowering's code shows what the listing shows: definitions and lemmas.
//!
//! Each atom is a variable, each block of the flow is a block of code, each op is the statements that do what it does
//! (`op_code`), and the way on from a block's last op is the block's exit. The locals that ops need stand behind the
//! atoms, numbered place by place.
//!
//! It is right by a simulation with a ranked wait (`proofs/Follows.antt`). The run of the listing stands at a place,
//! the run of the code in the block of that place, in front of the place's statements; the worlds are equal as far as
//! memory is seen, and each variable of a range holds its word. A step of the listing is matched by the statements of
//! its op, and behind the last op of a block by what the exit reads and the exit. Then the two runs stand so again, or
//! both have ended in the same way. An op without statements lets the code stand still. It can't do so for ever: the
//! number of places that follow in the block is the rank, which falls at each such step.
//!
//! Memory enters only through the bytes that are seen of it, and those of frame variables through what is seen of them by
//! their offsets, so the theorem (`proofs/Keeps.antt`) holds over any memory whose acts are those of bytes. Frame
//! variables' bytes are ranges of variables like registers', so no step is a case of its own for them here.
#![tactic(auto)]
