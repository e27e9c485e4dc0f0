//! What the reader meets.

ghost use Rattle.std.specs.Prelude.{◌≡◌};
ghost use Rattle.cread.specs.declared.item.CFault.TheVariants.{Memory};

use bits_core::Width;
use cmeaning::{
    ArithmeticOp, CName, CompareOp, DivisionOp, Expr, OverflowOp, ShiftOp, StatementDivision,
};
use pcode_model::{Name, ParamStorage};
use std::alloc::{AllocError, AllocFailed};

/// Why there is no tree.
#[derive(Clone, Copy, Debug, PartialEq, Eq)]
pub enum CFault {
    /// No valid tree has this text.
    NotC,
    Memory,
}

impl From<AllocError> for CFault {
    ghost from_gives = { λ _ e. e ≡ Memory };

    fn from(_refused: AllocError) -> CFault {
        CFault::Memory
    }
}

impl<T: Drop> From<AllocFailed<T>> for CFault {
    ghost from_gives = { λ _ e. e ≡ Memory };

    fn from(_refused: AllocFailed<T>) -> CFault {
        CFault::Memory
    }
}

impl From<bits_core::Memory> for CFault {
    ghost from_gives = { λ _ e. e ≡ Memory };

    fn from(_refused: bits_core::Memory) -> CFault {
        CFault::Memory
    }
}

/// An expression with its width in bytes, and whether it stands in its signed form.
#[derive(Drop)]
pub struct Item {
    pub tree: Expr,
    pub width: u8,
    pub signed: bool,
}

/// A sign between two operands.
#[derive(Clone, Copy)]
pub enum Sign {
    Arithmetic(ArithmeticOp),
    Division(DivisionOp),
    Shift(ShiftOp),
    Compare(CompareOp),
}

/// A word before two operands.
#[derive(Clone, Copy)]
pub enum Pair {
    Shift(ShiftOp),
    Concat,
    Overflow(OverflowOp),
}

/// What the name of a parameter says.
#[derive(Clone, Copy)]
pub struct Entry {
    pub model: bool,
    pub storage: ParamStorage,
}

/// The bytes of a space at an address.
#[derive(Drop)]
pub struct Access {
    pub space: Option<Name>,
    pub address: Expr,
}

/// What a statement begins with.
#[derive(Clone, Copy)]
pub enum Line {
    If,
    Loop,
    While,
    Do,
    Switch,
    Break,
    Goto,
    Return,
    /// A return of a value.
    Give,
    Label,
}

/// What a memory access, a call or a division begins with, behind a target or alone.
#[derive(Clone, Copy)]
pub enum Right {
    /// Of the first ram space.
    Pointed,
    /// Of another ram space.
    Memory,
    /// A callee with a declared name.
    Named,
    /// A callee with a name from its address.
    Bare,
    Indirect,
    Other,
    Extra,
    Divide(StatementDivision),
}

/// What a callee's declaration and the function begin with.
#[derive(Drop)]
pub struct Head {
    pub returns: bool,
    pub gives: Option<Width>,
    pub name: CName,
}
