//! Blocks of statements over variables.

use bits_core::Width;
use cmeaning::{Body, Expr};
use pcode_model::ParamStorage;
use sqlite_items::Items;

pub type Variables = Items<Variable>;

pub type Arms = Items<Arm>;

pub type Blocks = Items<Block>;

/// A variable, named by its number.
#[derive(Clone, Copy, Debug, PartialEq, Eq)]
pub struct Variable {
    pub width: Width,
    /// Of a parameter: where its word stands as the function is entered.
    pub storage: Option<ParamStorage>,
}

/// A case of a switch: to a block where the value is this one.
#[derive(Clone, Copy, Debug, PartialEq, Eq)]
pub struct Arm {
    pub value: u128,
    pub to: u32,
}

/// How a block is left. Blocks go by their numbers.
#[derive(Drop)]
pub enum Exit {
    /// The end of the function, with the value of an expression or none.
    Return(Option<Expr>),
    Jump(u32),
    /// To `taken` where the condition isn't 0, and else to `other`.
    Test {
        condition: Expr,
        taken: u32,
        other: u32,
    },
    /// By the value of an expression, which is that of an arm. The arms' values differ.
    Switch {
        value: Expr,
        arms: Arms,
    },
    /// After a call of a function that doesn't return.
    Stop,
}

/// Simple statements one after another, and the exit behind them.
#[derive(Drop)]
pub struct Block {
    pub body: Body,
    pub exit: Exit,
}

/// The code of a function.
#[derive(Drop)]
pub struct Code {
    pub variables: Variables,
    pub blocks: Blocks,
    /// The number of the block where a run begins.
    pub entry: u32,
}
