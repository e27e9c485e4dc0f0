use crate::word::Width;

/// An operation with one input. The word in capitals is p-code's.
#[derive(Clone, Copy, Debug, PartialEq, Eq)]
pub enum Unary {
    /// COPY: the input.
    Copy,
    /// INT_2COMP: the arithmetic negation.
    Negate,
    /// INT_NEGATE: each bit the other way.
    Complement,
    /// INT_ZEXT: wider, filled with zeros.
    ZeroExtend,
    /// INT_SEXT: wider, filled with the sign bit.
    SignExtend,
    /// POPCOUNT: the number of bits that are 1.
    CountOnes,
    /// LZCOUNT: the number of zeros above the highest bit that is 1.
    CountLeadingZeros,
    /// BOOL_NEGATE: the lowest bit the other way.
    BoolNegate,
}

impl Unary {
    ghost use Rattle.std.specs.Prelude.{◌↔◌, IsTrue};
    ghost use Rattle.bits_core.specs.Value.{IsUnarySized};

    /// Whether the widths of the input and the output obey the operation's size rule.
    pub fn is_sized(self, a: Width, out: Width) -> bool
        ensures { IsTrue result ↔ IsUnarySized self a.bytes out.bytes }
    {
        match self {
            Unary::Copy | Unary::Negate | Unary::Complement => a.bytes == out.bytes,
            Unary::ZeroExtend | Unary::SignExtend => a.bytes < out.bytes,
            Unary::CountOnes | Unary::CountLeadingZeros => true,
            Unary::BoolNegate => (a.bytes == 1) & (out.bytes == 1),
        }
    }
}

/// An operation with two inputs that has a value at all of them. The word in capitals is p-code's.
#[derive(Clone, Copy, Debug, PartialEq, Eq)]
pub enum Binary {
    /// PIECE: the first input as the high part, the second as the low part.
    Piece,
    /// SUBPIECE: the first input without so many low bytes as the second says.
    Subpiece,
    /// INT_ADD: the sum.
    Add,
    /// INT_SUB: the difference.
    Subtract,
    /// INT_MULT: the product.
    Multiply,
    /// INT_AND: bit by bit.
    And,
    /// INT_OR: bit by bit.
    Or,
    /// INT_XOR: bit by bit.
    Xor,
    /// INT_EQUAL: 1 where the inputs are equal.
    Equal,
    /// INT_NOTEQUAL: 1 where the inputs differ.
    NotEqual,
    /// INT_LESS: 1 where the first is less, unsigned.
    Less,
    /// INT_LESSEQUAL: 1 where the first is at most the second, unsigned.
    LessEqual,
    /// INT_SLESS: 1 where the first is less, signed.
    SignedLess,
    /// INT_SLESSEQUAL: 1 where the first is at most the second, signed.
    SignedLessEqual,
    /// INT_CARRY: 1 where the unsigned sum doesn't fit.
    Carry,
    /// INT_SCARRY: 1 where the signed sum doesn't fit.
    SignedCarry,
    /// INT_SBORROW: 1 where the signed difference doesn't fit.
    SignedBorrow,
    /// INT_LEFT: shifted left by so many bits as the second input says.
    Left,
    /// INT_RIGHT: shifted right, filled with zeros.
    Right,
    /// INT_SRIGHT: shifted right, filled with the sign bit.
    SignedRight,
    /// BOOL_AND: bit by bit, on one byte.
    BoolAnd,
    /// BOOL_OR: bit by bit, on one byte.
    BoolOr,
    /// BOOL_XOR: bit by bit, on one byte.
    BoolXor,
}

impl Binary {
    ghost use Rattle.std.specs.Prelude.{◌↔◌, IsTrue};
    ghost use Rattle.bits_core.specs.Value.{IsBinarySized};

    /// Whether the widths of the inputs and the output obey the operation's size rule.
    pub fn is_sized(self, a: Width, b: Width, out: Width) -> bool
        ensures { IsTrue result ↔ IsBinarySized self a.bytes b.bytes out.bytes }
    {
        let (a, b, out) = (a.bytes, b.bytes, out.bytes);
        match self {
            Binary::Piece => out == a + b,
            Binary::Subpiece => true,
            Binary::Add
            | Binary::Subtract
            | Binary::Multiply
            | Binary::And
            | Binary::Or
            | Binary::Xor => (a == out) & (b == out),
            Binary::Equal
            | Binary::NotEqual
            | Binary::Less
            | Binary::LessEqual
            | Binary::SignedLess
            | Binary::SignedLessEqual
            | Binary::Carry
            | Binary::SignedCarry
            | Binary::SignedBorrow => (a == b) & (out == 1),
            Binary::Left | Binary::Right | Binary::SignedRight => a == out,
            Binary::BoolAnd | Binary::BoolOr | Binary::BoolXor => (a == 1) & (b == 1) & (out == 1),
        }
    }
}

/// A division or a remainder, which has no value where the divisor is 0. The word in capitals is
/// p-code's.
#[derive(Clone, Copy, Debug, PartialEq, Eq)]
pub enum Divide {
    /// INT_DIV: the unsigned quotient.
    Quotient,
    /// INT_SDIV: the signed quotient, toward zero.
    SignedQuotient,
    /// INT_REM: the unsigned remainder.
    Remainder,
    /// INT_SREM: the signed remainder, with the dividend's sign.
    SignedRemainder,
}
