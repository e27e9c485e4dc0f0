//! The tree of a C function.
//!
//! A variable is named by its number: the parameters first, then the locals. Widths are in bytes.

use crate::callees::CalleeDecls;
use crate::param_decls::ParamDecls;
use bits_core::{Width, Word};
use pcode_model::{Name, ParamStorage};
use sqlite_items::{Boxed, Items};

pub type Exprs = Items<Expr>;

pub type Body = Items<Stmt>;

pub type Arms = Items<Arm>;

pub type Values = Items<u128>;

pub type Widths = Items<Width>;

pub type Locals = Items<Local>;

#[derive(Clone, Copy, Debug, PartialEq, Eq)]
pub enum UnaryOp {
    Neg,
    Not,
}

#[derive(Clone, Copy, Debug, PartialEq, Eq)]
pub enum ArithmeticOp {
    Add,
    Sub,
    Mul,
    And,
    Or,
    Xor,
}

#[derive(Clone, Copy, Debug, PartialEq, Eq)]
pub enum DivisionOp {
    Div,
    Rem,
}

#[derive(Clone, Copy, Debug, PartialEq, Eq)]
pub enum SignedDivisionOp {
    SDiv,
    SRem,
}

#[derive(Clone, Copy, Debug, PartialEq, Eq)]
pub enum ShiftOp {
    Shl,
    Shr,
    Sar,
}

#[derive(Clone, Copy, Debug, PartialEq, Eq)]
pub enum CompareOp {
    Eq,
    Ne,
    Lt,
    Le,
}

#[derive(Clone, Copy, Debug, PartialEq, Eq)]
pub enum SignedCompareOp {
    SLt,
    SLe,
}

#[derive(Clone, Copy, Debug, PartialEq, Eq)]
pub enum ExtendOp {
    Zext,
    Sext,
}

#[derive(Clone, Copy, Debug, PartialEq, Eq)]
pub enum OverflowOp {
    Carry,
    SCarry,
    SBorrow,
}

#[derive(Clone, Copy, Debug, PartialEq, Eq)]
pub enum CountOp {
    Popcount,
    Lzcount,
}

/// A division that stands as a statement, since its divisor may be 0.
#[derive(Clone, Copy, Debug, PartialEq, Eq)]
pub enum StatementDivision {
    Div,
    SDiv,
    Rem,
    SRem,
}

/// An expression, whose value is an unsigned word.
#[derive(Drop)]
pub enum Expr {
    Const(Word),
    Var(u32),
    Unary(UnaryOp, Boxed<Expr>),
    Arithmetic(ArithmeticOp, Boxed<Expr>, Boxed<Expr>),
    /// By a divisor that is a constant other than 0.
    Division(DivisionOp, Boxed<Expr>, Boxed<Expr>),
    /// By a divisor that is a constant neither 0 nor all ones.
    SignedDivision(SignedDivisionOp, Boxed<Expr>, Boxed<Expr>),
    /// The right operand counts bits.
    Shift(ShiftOp, Boxed<Expr>, Boxed<Expr>),
    Compare(CompareOp, Boxed<Expr>, Boxed<Expr>),
    SignedCompare(SignedCompareOp, Boxed<Expr>, Boxed<Expr>),
    /// To a greater width.
    Extend(ExtendOp, Width, Boxed<Expr>),
    /// So many low bytes are dropped, and the width is kept of what is left.
    Part(u8, Width, Boxed<Expr>),
    /// The high part, then the low part.
    Concat(Boxed<Expr>, Boxed<Expr>),
    Overflow(OverflowOp, Boxed<Expr>, Boxed<Expr>),
    Count(CountOp, Boxed<Expr>),
}

/// A statement. A target is the number of a variable; where `space` is missing, the first ram space is meant, else the
/// ram space of that name.
#[derive(Drop)]
#[cycle(tree)]
pub enum Stmt {
    Assign {
        target: u32,
        value: Expr,
    },
    Load {
        target: u32,
        space: Option<Name>,
        address: Expr,
    },
    Store {
        space: Option<Name>,
        address: Expr,
        value: Expr,
    },
    /// Of the function at this address.
    Call {
        target: Option<u32>,
        callee: u64,
        args: Exprs,
    },
    /// Of the function whose address is computed.
    CallInd {
        target: Option<u32>,
        callee: Expr,
        args: Exprs,
    },
    Other {
        target: Option<u32>,
        index: u64,
        args: Exprs,
    },
    /// Bytes of the register space that the call just before left, from this offset on.
    Extra {
        target: u32,
        offset: u64,
    },
    Divide {
        target: u32,
        op: StatementDivision,
        left: Expr,
        right: Expr,
    },
    If {
        condition: Expr,
        body: Body,
    },
    IfElse {
        condition: Expr,
        yes: Body,
        no: Body,
    },
    While {
        condition: Expr,
        body: Body,
    },
    DoWhile {
        body: Body,
        condition: Expr,
    },
    Loop {
        body: Body,
    },
    Break,
    Switch {
        value: Expr,
        arms: Arms,
    },
    /// To the label of this number.
    Goto(u32),
    Label(u32),
    Return(Option<Expr>),
}

/// An arm of a switch: its case values, and what is done.
#[derive(Drop)]
#[cycle(tree)]
pub struct Arm {
    pub cases: Values,
    pub body: Body,
}

#[derive(Clone, Copy, Debug, PartialEq, Eq)]
pub struct Param {
    /// Where its word stands as the function is entered.
    pub storage: ParamStorage,
    /// Whether the storage is one of the prototype's arguments: it prints as `p_`, and otherwise as `in_`.
    pub model: bool,
    pub width: Width,
    pub signed: bool,
}

#[derive(Clone, Copy, Debug, PartialEq, Eq)]
pub struct Local {
    pub width: Width,
    pub signed: bool,
}

/// The name of a callee: as the listing declares it, or made from the address.
#[derive(Drop)]
pub enum CName {
    Declared(Name),
    Bare,
}

/// The declaration of a callee.
#[derive(Drop)]
pub struct CalleeDecl {
    pub name: CName,
    pub address: u64,
    pub gives: Option<Width>,
    pub args: Widths,
    /// False for a callee that never returns.
    pub returns: bool,
}

/// A function with the declarations of its callees.
#[derive(Drop)]
pub struct CFunction {
    pub callees: CalleeDecls,
    pub name: Name,
    pub gives: Option<Width>,
    pub params: ParamDecls,
    pub locals: Locals,
    pub body: Body,
}
