// The integer and boolean operations of p-code on words of 1 to 16 bytes. No call takes memory.
#![tactic(auto)]

pub mod apply;
pub mod memory;
pub mod ops;
pub mod word;

pub use apply::{DivZero, binary, divide, unary};
pub use memory::Memory;
pub use ops::{Binary, Divide, Unary};
pub use word::{Width, Word};
