//! Statements of the body.

ghost use Rattle.std.specs.Prelude.{◌≡◌, ◌+◌, ◌<◌, ◌^◌, ◌++◌, [], ◌∷◌, OnOk};
ghost use Rattle.cmeaning.specs.declared.tree.Stmt.TheVariants as S;
ghost use Rattle.blockcode.specs.Laid.{label_line, goto, exit_lines};

use crate::branches::branches;
use bits_core::Memory;
use blockcode::{Block, Exit};
use cmeaning::{Body, Expr, Stmt};
use std::alloc::Global;

fn add_label(body: &mut Body, named: bool, block: u32) -> Result<(), Memory>
    ensures { OnOk result (body.new ≡ body.old ++ label_line named block) }
{
    if named {
        body.push(Stmt::Label(block))?;
    }
    Ok(())
}

/// Adds a goto to a block, unless it is the next one.
pub(crate) fn add_jump(body: &mut Body, next: u32, to: u32) -> Result<(), Memory>
    ensures { OnOk result (body.new ≡ body.old ++ goto next to) }
{
    if to != next {
        body.push(Stmt::Goto(to))?;
    }
    Ok(())
}

fn add_test(alloc: Global, body: &mut Body, condition: Expr, taken: u32) -> Result<(), Memory>
    ensures { OnOk result (body.new ≡ body.old ++ S.If condition (S.Goto taken ∷ []) ∷ []) }
{
    let mut inner = Body::new(alloc);
    inner.push(Stmt::Goto(taken))?;
    body.push(Stmt::If {
        condition,
        body: inner,
    })?;
    Ok(())
}

fn add_exit(alloc: Global, body: &mut Body, next: u32, exit: Exit) -> Result<(), Memory>
    ensures { OnOk result (body.new ≡ body.old ++ exit_lines next exit) }
{
    match exit {
        Exit::Return(value) => {
            body.push(Stmt::Return(value))?;
            Ok(())
        }
        Exit::Jump(to) => add_jump(body, next, to),
        Exit::Test {
            condition,
            taken,
            other,
        } => {
            add_test(alloc, body, condition, taken)?;
            add_jump(body, next, other)
        }
        Exit::Switch { value, arms } => {
            let arms = branches(alloc, arms.as_slice())?;
            body.push(Stmt::Switch { value, arms })?;
            Ok(())
        }
        Exit::Stop => Ok(()),
    }
}

/// Adds a block: its label, where a goto names it, its statements and its exit.
pub(crate) fn add_block(
    alloc: Global,
    body: &mut Body,
    named: bool,
    number: u32,
    block: Block,
) -> Result<(), Memory>
    requires { number + 1 < 2 ^ 32 }
    ensures { OnOk result (body.new ≡ body.old ++ (label_line named number ++ (block.body ++ exit_lines (number + 1) block.exit))) }
{
    add_label(body, named, number)?;
    let Block {
        body: statements,
        exit,
    } = block;
    body.append(statements)?;
    add_exit(alloc, body, number + 1, exit)
}
