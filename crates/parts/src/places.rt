//! What stands in the place of a variable.

ghost use Rattle.std.specs.Prelude.{◌≡◌, ℕ, IfOk};
ghost use Rattle.cmeaning.specs.declared.tree.Expr.{Expr as AnExpr};
ghost use Rattle.cmeaning.specs.declared.tree.Expr.TheVariants as E;
ghost use Rattle.parts.specs.Tables.{name_in, expr_in};

use crate::exprs::copy;
use bits_core::Memory;
use cmeaning::Expr;
use sqlite_items::Items;
use std::alloc::Global;

/// Another name for each target, and an expression in the place of each variable that is read.
pub trait Places {
    ghost name: { Self → ℕ → ℕ };

    ghost place: { Self → ℕ → AnExpr };

    /// The name of a target.
    fn target(&self, v: u32) -> u32
        ensures { result ≡ name self.now v };

    /// What stands in the place of a variable that is read.
    fn read(&self, alloc: Global, v: u32) -> Result<Expr, Memory>
        ensures { IfOk result (λ e. e ≡ place self.now v) };
}

/// Each variable as itself.
#[derive(Clone, Copy, Debug, PartialEq, Eq)]
pub struct Own;

impl Places for Own {
    ghost name = { λ p v. v };

    ghost place = { λ p v. E.Var v };

    fn target(&self, v: u32) -> u32 {
        v
    }

    fn read(&self, _alloc: Global, v: u32) -> Result<Expr, Memory> {
        Ok(Expr::Var(v))
    }
}

/// Each variable under the name that a table has at its number; past the table's end, under its own.
#[derive(Drop)]
pub struct Names {
    pub names: Items<u32>,
}

impl Places for Names {
    ghost name = { λ p v. name_in p.names v };

    ghost place = { λ p v. E.Var (name_in p.names v) };

    fn target(&self, v: u32) -> u32 {
        match self.names.get(v as usize) {
            None => v,
            Some(name) => *name,
        }
    }

    fn read(&self, _alloc: Global, v: u32) -> Result<Expr, Memory> {
        Ok(Expr::Var(self.target(v)))
    }
}

/// The expression that a table has at a variable's number; else the variable. Targets stay.
#[derive(Drop)]
pub struct Replaced {
    pub exprs: Items<Option<Expr>>,
}

impl Places for Replaced {
    ghost name = { λ p v. v };

    ghost place = { λ p v. expr_in p.exprs v };

    fn target(&self, v: u32) -> u32 {
        v
    }

    fn read(&self, alloc: Global, v: u32) -> Result<Expr, Memory> {
        match self.exprs.get(v as usize) {
            None => Ok(Expr::Var(v)),
            Some(None) => Ok(Expr::Var(v)),
            Some(Some(e)) => copy(alloc, e),
        }
    }
}
