//! The frame of a listing: which bytes of the stack its function has as variables of its own, and which accesses are theirs.
//!
//! First what is known of the stack pointer where each block begins (`frame_known`). Then a walk goes along each block with
//! the row of what is known before the place where it stands, and collects what the op there tells, or accesses, with the
//! offset that the row knows of a range (`specs/Walk.antt`): the facts where blocks begin; the offsets of addresses that a
//! callee or the memory may come to know, which escape; and all accesses of the frame, which are those by known addresses
//! near the entry word. The accesses fall into classes by shared bytes, and a class is a variable where all its bytes lie
//! below every offset that escapes (`frame_classes`), since whoever has an address may reach upwards from it. The accesses
//! of variables are the frame's; every other access goes through memory (`src/listing_frame.rt`).
//!
//! Each reached place stands in one block and once, and the row before it knows just the facts there. So what is found is
//! what the definition has, and nothing else (`proofs/Walk.antt`, `proofs/Places.antt`). The blocks' places rise, one block
//! after another; at one place accesses come by rising number, and facts by rising slot. So the lists of accesses and of
//! facts are in their order as they are found (`proofs/Sorted.antt`). Offsets that escape are found in no order, and some
//! more than once: they are sorted, and each is kept once (`proofs/Rising.antt`).
//!
//! Without a `stack` line no range can hold an address of the stack: there are no slots for facts, each block is passed once
//! and each op looked at a few times, and the frame is empty.
#![tactic(auto)]

mod accesses;
mod escapes;
mod facts;
mod listing_frame;
mod offsets;

pub use accesses::accesses_found;
pub use escapes::escapes_found;
pub use facts::facts_found;
pub use listing_frame::frame;
