//! An expression as what is seen.

ghost use Rattle.std.specs.Prelude.{◌≡◌, ◌↔◌, ◌<◌, ◌≤◌, ℕ, IsTrue, MatchOption};
ghost use Rattle.cmeaning.specs.declared.tree.Expr.{Expr};
ghost use Rattle.cmeaning.specs.declared.tree.Expr.TheVariants as E;
ghost use Rattle.rule_views.specs.declared.nodes.Single.{Single};
ghost use Rattle.rule_views.specs.declared.nodes.Pair.{Pair};
ghost use Rattle.rule_views.specs.InTree.{IsIn, widths_by};
ghost use Rattle.rule_views.specs.InTree as T;
ghost use Rattle.rule_views.specs.Nodes.{single_node, pair_node};

use crate::nodes::{Pair, Single};
use crate::view::View;
use bits_core::{Width, Word};
use cmeaning::Expr;

/// A place in an expression, among variables of these widths.
#[derive(Clone, Copy)]
pub struct Tree<'a> {
    pub at: &'a Expr,
    pub widths: &'a [Width],
}

fn variable_width(widths: &[Width], v: u32) -> u8
    ensures { result ≡ widths_by widths.now v }
{
    match widths.get(v as usize) {
        Some(w) => w.bytes,
        None => 0,
    }
}

// The width of so many bytes, where they are from 1 to 16.
fn width_by(bytes: u8) -> Width
    ensures { 0 < bytes → bytes ≤ 16 → result.bytes ≡ bytes }
{
    match Width::new(bytes) {
        Some(w) => w,
        None => Width::BYTE,
    }
}

/// The width of an expression in bytes, where its operands agree.
#[tactic(auto, unfolding(crate::specs::InTree::bytes_of))]
pub fn bytes_of(e: &Expr, widths: &[Width]) -> u8
    ensures { result ≡ T.bytes_of (widths_by widths.now) e.now }
{
    match e {
        Expr::Const(c) => c.width.bytes,
        Expr::Var(v) => variable_width(widths, *v),
        Expr::Unary(_, a) => bytes_of(a.get(), widths),
        Expr::Arithmetic(_, a, _) => bytes_of(a.get(), widths),
        Expr::Division(_, a, _) => bytes_of(a.get(), widths),
        Expr::SignedDivision(_, a, _) => bytes_of(a.get(), widths),
        Expr::Shift(_, a, _) => bytes_of(a.get(), widths),
        Expr::Compare(_, _, _) => 1,
        Expr::SignedCompare(_, _, _) => 1,
        Expr::Extend(_, w, _) => w.bytes,
        Expr::Part(_, w, _) => w.bytes,
        Expr::Concat(a, b) => bytes_of(a.get(), widths).saturating_add(bytes_of(b.get(), widths)),
        Expr::Overflow(_, _, _) => 1,
        Expr::Count(_, _) => 1,
    }
}

// A node with one operand.
fn operand(e: &Expr) -> Option<(Single, &Expr)>
    ensures { MatchOption result
        ((s : Single) (x : Expr) → e.now ≡ single_node s x → ⊥) (λ p. e.now ≡ single_node p.0 p.1.now) }
{
    match e {
        Expr::Unary(op, a) => Some((Single::Unary(*op), a.get())),
        Expr::Extend(op, w, a) => Some((Single::Extend(*op, *w), a.get())),
        Expr::Part(k, w, a) => Some((Single::Part(*k, *w), a.get())),
        Expr::Count(op, a) => Some((Single::Count(*op), a.get())),
        _ => None,
    }
}

// A node with two operands.
fn operands(e: &Expr) -> Option<(Pair, &Expr, &Expr)>
    ensures { MatchOption result
        ((p : Pair) (x y : Expr) → e.now ≡ pair_node p x y → ⊥) (λ t. e.now ≡ pair_node t.0 t.1.now t.2.now) }
{
    match e {
        Expr::Arithmetic(op, a, b) => Some((Pair::Arithmetic(*op), a.get(), b.get())),
        Expr::Division(op, a, b) => Some((Pair::Division(*op), a.get(), b.get())),
        Expr::SignedDivision(op, a, b) => Some((Pair::SignedDivision(*op), a.get(), b.get())),
        Expr::Shift(op, a, b) => Some((Pair::Shift(*op), a.get(), b.get())),
        Expr::Compare(op, a, b) => Some((Pair::Compare(*op), a.get(), b.get())),
        Expr::SignedCompare(op, a, b) => Some((Pair::SignedCompare(*op), a.get(), b.get())),
        Expr::Concat(a, b) => Some((Pair::Concat, a.get(), b.get())),
        Expr::Overflow(op, a, b) => Some((Pair::Overflow(*op), a.get(), b.get())),
        _ => None,
    }
}

impl<'a> View for Tree<'a> {
    ghost Sees = { λ vs t e. IsIn t.widths.now t.at.now vs.widths e };

    fn constant(self) -> Option<Word> {
        match self.at {
            Expr::Const(c) => Some(*c),
            _ => None,
        }
    }

    fn single(self) -> Option<(Single, Self)> {
        let (node, at) = operand(self.at)?;
        let widths = self.widths;
        Some((node, Tree { at, widths }))
    }

    fn pair(self) -> Option<(Pair, Self, Self)> {
        let (node, left, right) = operands(self.at)?;
        let widths = self.widths;
        Some((node, Tree { at: left, widths }, Tree { at: right, widths }))
    }

    fn width(self) -> Width {
        width_by(bytes_of(self.at, self.widths))
    }

    fn same(self, other: Self) -> bool {
        match self.at {
            Expr::Var(v) => is_var(other.at, *v),
            Expr::Const(c) => is_const(other.at, *c),
            _ => false,
        }
    }
}

fn is_var(e: &Expr, v: u32) -> bool
    ensures { IsTrue result ↔ (e.now ≡ E.Var v) }
{
    match e {
        Expr::Var(w) => *w == v,
        _ => false,
    }
}

fn is_const(e: &Expr, c: Word) -> bool
    ensures { IsTrue result ↔ (e.now ≡ E.Const c) }
{
    match e {
        Expr::Const(d) => *d == c,
        _ => false,
    }
}
