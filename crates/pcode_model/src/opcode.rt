//! The operations that a listing may name. Each value stands for one word of the listing.

use bits_core::{Binary, Divide, Unary};
use sqlite_items::Items;

/// The operation of an op.
#[derive(Drop)]
pub enum Opcode {
    /// `COPY`, `INT_2COMP`, `INT_NEGATE`, `INT_ZEXT`, `INT_SEXT`, `POPCOUNT`, `LZCOUNT`, `BOOL_NEGATE`.
    Unary(Unary),
    /// `PIECE`, `SUBPIECE`, and the arithmetic, comparisons, shifts and boolean operations of two inputs.
    Binary(Binary),
    /// `INT_DIV`, `INT_SDIV`, `INT_REM`, `INT_SREM`.
    Divide(Divide),
    Load,
    Store,
    Branch,
    CBranch,
    BranchInd,
    Call,
    CallInd,
    CallOther,
    Return,
    /// A word that begins `FLOAT_`, with what follows these six letters.
    Float(Items<u8>),
    FloatConversion(FloatConversion),
    Analysis(AnalysisOp),
    LeftOut(LeftOutOp),
}

/// Conversions and roundings of floating point numbers: known words, and no op of the profile.
#[derive(Clone, Copy, Debug, PartialEq, Eq)]
pub enum FloatConversion {
    /// `INT2FLOAT`
    FromInt,
    /// `FLOAT2FLOAT`
    Resize,
    /// `TRUNC`
    Truncate,
    /// `CEIL`
    Ceiling,
    /// `FLOOR`
    Floor,
    /// `ROUND`
    Round,
}

/// Ops that a decompiler's analysis adds: known words, and no op of the profile.
#[derive(Clone, Copy, Debug, PartialEq, Eq)]
pub enum AnalysisOp {
    /// `MULTIEQUAL`
    MultiEqual,
    /// `INDIRECT`
    Indirect,
    /// `PTRADD`
    PtrAdd,
    /// `PTRSUB`
    PtrSub,
    /// `CAST`
    Cast,
}

/// Further known words that are no op of the profile.
#[derive(Clone, Copy, Debug, PartialEq, Eq)]
pub enum LeftOutOp {
    /// `INSERT`
    Insert,
    /// `EXTRACT`
    Extract,
    /// `SEGMENTOP`
    SegmentOp,
    /// `CPOOLREF`
    CpoolRef,
    /// `NEW`
    New,
}
