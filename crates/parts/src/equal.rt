//! Whether two expressions are one.

ghost use Rattle.std.specs.Prelude.{◌≡◌, ◌↔◌, IsTrue};

use bits_core::{Width, Word};
use cmeaning::Expr;

#[tactic(auto, using(bits_core::proofs::Words::same_width))]
fn same_width(a: Width, b: Width) -> bool
    ensures { IsTrue result ↔ (a ≡ b) }
{
    a.bytes == b.bytes
}

#[tactic(auto, using(bits_core::proofs::Words::same_word))]
fn same_word(a: Word, b: Word) -> bool
    ensures { IsTrue result ↔ (a ≡ b) }
{
    a.value == b.value && same_width(a.width, b.width)
}

/// Whether two expressions are one.
pub fn same(a: &Expr, b: &Expr) -> bool
    ensures { IsTrue result ↔ (a.now ≡ b.now) }
{
    match a {
        Expr::Const(c) => matches!(b, Expr::Const(d) if same_word(*c, *d)),
        Expr::Var(v) => matches!(b, Expr::Var(w) if *v == *w),
        Expr::Unary(op, p) => {
            matches!(b, Expr::Unary(by, q) if *op == *by && same(p.get(), q.get()))
        }
        Expr::Arithmetic(op, p, q) => {
            matches!(b, Expr::Arithmetic(by, r, s) if *op == *by && same(p.get(), r.get()) && same(q.get(), s.get()))
        }
        Expr::Division(op, p, q) => {
            matches!(b, Expr::Division(by, r, s) if *op == *by && same(p.get(), r.get()) && same(q.get(), s.get()))
        }
        Expr::SignedDivision(op, p, q) => {
            matches!(b, Expr::SignedDivision(by, r, s) if *op == *by && same(p.get(), r.get()) && same(q.get(), s.get()))
        }
        Expr::Shift(op, p, q) => {
            matches!(b, Expr::Shift(by, r, s) if *op == *by && same(p.get(), r.get()) && same(q.get(), s.get()))
        }
        Expr::Compare(op, p, q) => {
            matches!(b, Expr::Compare(by, r, s) if *op == *by && same(p.get(), r.get()) && same(q.get(), s.get()))
        }
        Expr::SignedCompare(op, p, q) => {
            matches!(b, Expr::SignedCompare(by, r, s) if *op == *by && same(p.get(), r.get()) && same(q.get(), s.get()))
        }
        Expr::Extend(op, w, p) => {
            matches!(b, Expr::Extend(by, v, q) if *op == *by && same_width(*w, *v) && same(p.get(), q.get()))
        }
        Expr::Part(dropped, w, p) => {
            matches!(b, Expr::Part(k, v, q) if *dropped == *k && same_width(*w, *v) && same(p.get(), q.get()))
        }
        Expr::Concat(p, q) => {
            matches!(b, Expr::Concat(r, s) if same(p.get(), r.get()) && same(q.get(), s.get()))
        }
        Expr::Overflow(op, p, q) => {
            matches!(b, Expr::Overflow(by, r, s) if *op == *by && same(p.get(), r.get()) && same(q.get(), s.get()))
        }
        Expr::Count(op, p) =>
            matches!(b, Expr::Count(by, q) if *op == *by && same(p.get(), q.get())),
    }
}
