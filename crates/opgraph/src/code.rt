//! What an op does.
use bits_core::Width;
use pcode_model::ParamStorage;

/// What an op does.
#[derive(Clone, Copy, Debug, PartialEq, Eq)]
pub enum Code {
    /// A constant.
    Const(u128),
    /// An entry value, with where it stands when the function is entered.
    Entry(ParamStorage),
    /// A MULTIEQUAL, with the number of its atom.
    Multi(u32),
    Copy,
    /// INT_2COMP.
    Negate,
    /// INT_NEGATE.
    Complement,
    Add,
    Subtract,
    Multiply,
    And,
    Or,
    Xor,
    Quotient,
    SignedQuotient,
    Remainder,
    SignedRemainder,
    Left,
    Right,
    SignedRight,
    Equal,
    NotEqual,
    Less,
    LessEqual,
    SignedLess,
    SignedLessEqual,
    ZeroExtend,
    SignExtend,
    Piece,
    /// A SUBPIECE, with the number of low bytes that it drops.
    Part(u32),
    Carry,
    SignedCarry,
    SignedBorrow,
    CountOnes,
    CountLeadingZeros,
    /// A LOAD, with the number of the space.
    Load(u8),
    /// A STORE, with the number of the space.
    Store(u8),
    /// A CALL, with the address of the callee.
    Call(u64),
    CallInd,
    /// A CALLOTHER, with its index.
    Other(u64),
    /// An EXTRAOUT: what a call leaves in the register at this offset, in bytes.
    Extra(u64),
    CBranch,
    BranchInd,
    Return,
}

/// What an op does, and how wide its value is if it has one.
#[derive(Clone, Copy)]
pub struct Body {
    pub code: Code,
    pub width: Option<Width>,
}
