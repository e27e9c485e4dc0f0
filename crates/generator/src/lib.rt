//! Listings that are drawn by a number.
//!
//! Each listing has one function of 2,000 instructions and a last one that returns. What an instruction does is drawn: its
//! shape, one of eight, two of eight registers, and a word. So listings of one size with sums, products, tests, loads,
//! stores and parts of registers are at hand by number, the same wherever they are made.
//!
//! Two draws from a linear congruential sequence make an instruction. The definition goes by the number of an instruction:
//! the state before it, the draw, the instruction, and the listing of any draws; the text is the listing's canonical text.
//! That the text is read as this listing and that the listing is accepted is proved in `generator_laws`.
#![tactic(auto)]

mod draws;
mod header;
mod listing;
mod shapes;
pub mod worked;

pub use draws::{DRAWN, Drawn, Shape};
pub use listing::{generate, generated_listing};
