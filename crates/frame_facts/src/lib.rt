//! What is known of addresses of the stack, and which bytes of it are variables of a function: definitions, and lemmas of
//! them.
//!
//! A fact says that before a place a range holds the stack pointer's entry word plus an offset (`specs/Facts.antt`). The
//! facts are the greatest set that supports itself: each of them by the entry or by what is known before it, on every edge
//! into its place. So a loop that moves the stack pointer by as much up as down keeps its facts, and one that moves it
//! further each time has none. A read by which an address may come to be known elsewhere lets its offset escape
//! (`specs/Escapes.antt`). The accesses of the frame are those by addresses with facts, near the entry word; they fall into
//! classes by shared bytes, and a class below every escaped offset is a frame variable (`specs/Accesses.antt`). What all
//! this makes of a listing is its frame (`specs/Listed.antt`).
//!
//! In a listing whose ops obey their rules each access of the frame has 1 to 16 bytes, and begins at most 2^20 bytes from
//! the entry word (`proofs/Bounded.antt`).
#![tactic(auto)]
