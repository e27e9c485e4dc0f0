//! The law of SSA functions: wherever a value is available, its equation holds.
//!
//! A value may be computed anew, in a loop, from inputs that were computed anew; until then its old word doesn't fit the
//! new ones of its inputs. Why none of this is seen where the value is available: say that x was computed anew and v,
//! which reads x, was not. Each path to v passes x, so the first part of a path to v is one to x that doesn't pass v; and
//! from x the run came here without passing v. So some path here doesn't pass v, and v isn't available.
//!
//! So the run keeps, step by step, of each value: its equation holds, or some path to this place doesn't pass it
//! (`proofs/Keeps`). What is assigned gets its equation; an op that reads it loses its own, and then there is such a path
//! (`proofs/Avoids`).
#![tactic(auto)]

pub mod available;
