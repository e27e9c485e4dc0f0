//! The measure of rewriting: what bounds the number of edits.
//!
//! Each op of a graph has a level, above those of its inputs, and from the levels of its inputs a need: how many edits
//! it may still see. A rewrite of an op lowers its need and raises nobody else's, since what is made stands over inputs
//! of levels that are no higher; so the sum of all needs bounds the edits, and levels are never computed again.
//!
//! A sum or a difference needs twice the sum of its inputs' levels, since adding a negation turns one into the other;
//! any other op twice its own level. One more where a rule may still change an op over in place: operands that commute
//! with no constant on the right, a shift by a count that isn't known to be below the bits, and where a rule's right
//! side may have such operands: a difference, `<`, `<=`, and words put together.
//!
//! Of an expression the total is the needs of all its nodes together (`specs/Total.antt`). An edit, a rule at any one of
//! its nodes, lessens the total, makes nothing higher and keeps the width (`lessens` in `proofs/Lessens.antt`); so an
//! expression sees at most as many edits as its total (`edits_most`).
#![tactic(auto)]
