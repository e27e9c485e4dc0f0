//! The operations that have a word of their own, in one list.

ghost use Rattle.std.specs.Prelude.{◌≡◌};
ghost use Rattle.operations.specs.Operations.{code_of};
ghost use Rattle.operations.specs.Words.{word_of};

use crate::words::{
    analysis_word, binary_word, conversion_word, divide_word, left_out_word, unary_word,
};
use bits_core::{Binary, Divide, Unary};
use pcode_model::{AnalysisOp, FloatConversion, LeftOutOp, Opcode};

/// An operation that has a word of its own: any but those whose word begins `FLOAT_`.
#[derive(Clone, Copy, Debug, PartialEq, Eq)]
pub enum Operation {
    Unary(Unary),
    Binary(Binary),
    Divide(Divide),
    Load,
    Store,
    Branch,
    CBranch,
    BranchInd,
    Call,
    CallInd,
    CallOther,
    Return,
    FloatConversion(FloatConversion),
    Analysis(AnalysisOp),
    LeftOut(LeftOutOp),
}

impl Operation {
    /// The word of the operation.
    pub fn word(self) -> &'static [u8]
        ensures { result.now ≡ word_of (code_of self) }
    {
        match self {
            Operation::Unary(op) => unary_word(op),
            Operation::Binary(op) => binary_word(op),
            Operation::Divide(op) => divide_word(op),
            Operation::Load => b"LOAD".as_slice(),
            Operation::Store => b"STORE".as_slice(),
            Operation::Branch => b"BRANCH".as_slice(),
            Operation::CBranch => b"CBRANCH".as_slice(),
            Operation::BranchInd => b"BRANCHIND".as_slice(),
            Operation::Call => b"CALL".as_slice(),
            Operation::CallInd => b"CALLIND".as_slice(),
            Operation::CallOther => b"CALLOTHER".as_slice(),
            Operation::Return => b"RETURN".as_slice(),
            Operation::FloatConversion(op) => conversion_word(op),
            Operation::Analysis(op) => analysis_word(op),
            Operation::LeftOut(op) => left_out_word(op),
        }
    }

    /// The operation as an op has it.
    pub fn opcode(self) -> Opcode
        ensures { result ≡ code_of self }
    {
        match self {
            Operation::Unary(op) => Opcode::Unary(op),
            Operation::Binary(op) => Opcode::Binary(op),
            Operation::Divide(op) => Opcode::Divide(op),
            Operation::Load => Opcode::Load,
            Operation::Store => Opcode::Store,
            Operation::Branch => Opcode::Branch,
            Operation::CBranch => Opcode::CBranch,
            Operation::BranchInd => Opcode::BranchInd,
            Operation::Call => Opcode::Call,
            Operation::CallInd => Opcode::CallInd,
            Operation::CallOther => Opcode::CallOther,
            Operation::Return => Opcode::Return,
            Operation::FloatConversion(op) => Opcode::FloatConversion(op),
            Operation::Analysis(op) => Opcode::Analysis(op),
            Operation::LeftOut(op) => Opcode::LeftOut(op),
        }
    }
}

/// Each operation that has a word of its own.
pub const OPERATIONS: [Operation; 60] = [
    Operation::Unary(Unary::Copy),
    Operation::Unary(Unary::Negate),
    Operation::Unary(Unary::Complement),
    Operation::Unary(Unary::ZeroExtend),
    Operation::Unary(Unary::SignExtend),
    Operation::Unary(Unary::CountOnes),
    Operation::Unary(Unary::CountLeadingZeros),
    Operation::Unary(Unary::BoolNegate),
    Operation::Binary(Binary::Piece),
    Operation::Binary(Binary::Subpiece),
    Operation::Binary(Binary::Add),
    Operation::Binary(Binary::Subtract),
    Operation::Binary(Binary::Multiply),
    Operation::Binary(Binary::And),
    Operation::Binary(Binary::Or),
    Operation::Binary(Binary::Xor),
    Operation::Binary(Binary::Equal),
    Operation::Binary(Binary::NotEqual),
    Operation::Binary(Binary::Less),
    Operation::Binary(Binary::LessEqual),
    Operation::Binary(Binary::SignedLess),
    Operation::Binary(Binary::SignedLessEqual),
    Operation::Binary(Binary::Carry),
    Operation::Binary(Binary::SignedCarry),
    Operation::Binary(Binary::SignedBorrow),
    Operation::Binary(Binary::Left),
    Operation::Binary(Binary::Right),
    Operation::Binary(Binary::SignedRight),
    Operation::Binary(Binary::BoolAnd),
    Operation::Binary(Binary::BoolOr),
    Operation::Binary(Binary::BoolXor),
    Operation::Divide(Divide::Quotient),
    Operation::Divide(Divide::SignedQuotient),
    Operation::Divide(Divide::Remainder),
    Operation::Divide(Divide::SignedRemainder),
    Operation::Load,
    Operation::Store,
    Operation::Branch,
    Operation::CBranch,
    Operation::BranchInd,
    Operation::Call,
    Operation::CallInd,
    Operation::CallOther,
    Operation::Return,
    Operation::FloatConversion(FloatConversion::FromInt),
    Operation::FloatConversion(FloatConversion::Resize),
    Operation::FloatConversion(FloatConversion::Truncate),
    Operation::FloatConversion(FloatConversion::Ceiling),
    Operation::FloatConversion(FloatConversion::Floor),
    Operation::FloatConversion(FloatConversion::Round),
    Operation::Analysis(AnalysisOp::MultiEqual),
    Operation::Analysis(AnalysisOp::Indirect),
    Operation::Analysis(AnalysisOp::PtrAdd),
    Operation::Analysis(AnalysisOp::PtrSub),
    Operation::Analysis(AnalysisOp::Cast),
    Operation::LeftOut(LeftOutOp::Insert),
    Operation::LeftOut(LeftOutOp::Extract),
    Operation::LeftOut(LeftOutOp::SegmentOp),
    Operation::LeftOut(LeftOutOp::CpoolRef),
    Operation::LeftOut(LeftOutOp::New),
];
