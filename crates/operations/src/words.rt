//! The words of the operations.

ghost use Rattle.std.specs.Prelude.{◌≡◌};
ghost use Rattle.operations.specs.Words.{analysis_word, binary_word, conversion_word, divide_word, left_out_word, unary_word};

use bits_core::{Binary, Divide, Unary};
use pcode_model::{AnalysisOp, FloatConversion, LeftOutOp};

/// The word of the operation.
pub fn unary_word(op: Unary) -> &'static [u8]
    ensures { result.now ≡ unary_word op }
{
    match op {
        Unary::Copy => b"COPY".as_slice(),
        Unary::Negate => b"INT_2COMP".as_slice(),
        Unary::Complement => b"INT_NEGATE".as_slice(),
        Unary::ZeroExtend => b"INT_ZEXT".as_slice(),
        Unary::SignExtend => b"INT_SEXT".as_slice(),
        Unary::CountOnes => b"POPCOUNT".as_slice(),
        Unary::CountLeadingZeros => b"LZCOUNT".as_slice(),
        Unary::BoolNegate => b"BOOL_NEGATE".as_slice(),
    }
}

/// The word of the operation.
pub fn binary_word(op: Binary) -> &'static [u8]
    ensures { result.now ≡ binary_word op }
{
    match op {
        Binary::Piece => b"PIECE".as_slice(),
        Binary::Subpiece => b"SUBPIECE".as_slice(),
        Binary::Add => b"INT_ADD".as_slice(),
        Binary::Subtract => b"INT_SUB".as_slice(),
        Binary::Multiply => b"INT_MULT".as_slice(),
        Binary::And => b"INT_AND".as_slice(),
        Binary::Or => b"INT_OR".as_slice(),
        Binary::Xor => b"INT_XOR".as_slice(),
        Binary::Equal => b"INT_EQUAL".as_slice(),
        Binary::NotEqual => b"INT_NOTEQUAL".as_slice(),
        Binary::Less => b"INT_LESS".as_slice(),
        Binary::LessEqual => b"INT_LESSEQUAL".as_slice(),
        Binary::SignedLess => b"INT_SLESS".as_slice(),
        Binary::SignedLessEqual => b"INT_SLESSEQUAL".as_slice(),
        Binary::Carry => b"INT_CARRY".as_slice(),
        Binary::SignedCarry => b"INT_SCARRY".as_slice(),
        Binary::SignedBorrow => b"INT_SBORROW".as_slice(),
        Binary::Left => b"INT_LEFT".as_slice(),
        Binary::Right => b"INT_RIGHT".as_slice(),
        Binary::SignedRight => b"INT_SRIGHT".as_slice(),
        Binary::BoolAnd => b"BOOL_AND".as_slice(),
        Binary::BoolOr => b"BOOL_OR".as_slice(),
        Binary::BoolXor => b"BOOL_XOR".as_slice(),
    }
}

/// The word of the operation.
pub fn divide_word(op: Divide) -> &'static [u8]
    ensures { result.now ≡ divide_word op }
{
    match op {
        Divide::Quotient => b"INT_DIV".as_slice(),
        Divide::SignedQuotient => b"INT_SDIV".as_slice(),
        Divide::Remainder => b"INT_REM".as_slice(),
        Divide::SignedRemainder => b"INT_SREM".as_slice(),
    }
}

/// The word of the operation.
pub fn conversion_word(op: FloatConversion) -> &'static [u8]
    ensures { result.now ≡ conversion_word op }
{
    match op {
        FloatConversion::FromInt => b"INT2FLOAT".as_slice(),
        FloatConversion::Resize => b"FLOAT2FLOAT".as_slice(),
        FloatConversion::Truncate => b"TRUNC".as_slice(),
        FloatConversion::Ceiling => b"CEIL".as_slice(),
        FloatConversion::Floor => b"FLOOR".as_slice(),
        FloatConversion::Round => b"ROUND".as_slice(),
    }
}

/// The word of the operation.
pub fn analysis_word(op: AnalysisOp) -> &'static [u8]
    ensures { result.now ≡ analysis_word op }
{
    match op {
        AnalysisOp::MultiEqual => b"MULTIEQUAL".as_slice(),
        AnalysisOp::Indirect => b"INDIRECT".as_slice(),
        AnalysisOp::PtrAdd => b"PTRADD".as_slice(),
        AnalysisOp::PtrSub => b"PTRSUB".as_slice(),
        AnalysisOp::Cast => b"CAST".as_slice(),
    }
}

/// The word of the operation.
pub fn left_out_word(op: LeftOutOp) -> &'static [u8]
    ensures { result.now ≡ left_out_word op }
{
    match op {
        LeftOutOp::Insert => b"INSERT".as_slice(),
        LeftOutOp::Extract => b"EXTRACT".as_slice(),
        LeftOutOp::SegmentOp => b"SEGMENTOP".as_slice(),
        LeftOutOp::CpoolRef => b"CPOOLREF".as_slice(),
        LeftOutOp::New => b"NEW".as_slice(),
    }
}
