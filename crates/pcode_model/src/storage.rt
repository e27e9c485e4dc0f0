//! Where a parameter or an entry value stands when the function is entered.

/// The place of a value at entry. Its size stands beside it.
#[derive(Clone, Copy, Debug, PartialEq, Eq)]
pub enum ParamStorage {
    /// An offset of the register space, in bytes.
    Register(u64),
    /// An offset of the unique space, in bytes.
    Unique(u64),
    /// An offset from the stack pointer's entry word, in bytes, maybe negative.
    Stack(i32),
}
