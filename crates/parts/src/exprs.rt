//! Expressions made anew, with something in the place of each variable.

ghost use Rattle.std.specs.Prelude.{◌≡◌, IfOk};
ghost use Rattle.parts.specs.Exprs.{with_all as all_with, with_each as each_with};

use crate::places::{Own, Places};
use bits_core::Memory;
use cmeaning::{Expr, Exprs};
use sqlite_items::{Boxed, Items};
use std::alloc::Global;

/// The expression with what stands in the place of each variable.
#[cycle(terms)]
#[tactic(auto, unfolding(crate::specs::Exprs::with_all))]
pub fn with_all<P: Places>(alloc: Global, places: &P, e: &Expr) -> Result<Expr, Memory>
    ensures { IfOk result (λ r. r ≡ all_with (P.place places.now) e.now) }
{
    match e {
        Expr::Const(c) => Ok(Expr::Const(*c)),
        Expr::Var(v) => places.read(alloc, *v),
        Expr::Unary(op, a) => Ok(Expr::Unary(*op, one(alloc, places, a.get())?)),
        Expr::Arithmetic(op, a, b) => {
            let (a, b) = two(alloc, places, a.get(), b.get())?;
            Ok(Expr::Arithmetic(*op, a, b))
        }
        Expr::Division(op, a, b) => {
            let (a, b) = two(alloc, places, a.get(), b.get())?;
            Ok(Expr::Division(*op, a, b))
        }
        Expr::SignedDivision(op, a, b) => {
            let (a, b) = two(alloc, places, a.get(), b.get())?;
            Ok(Expr::SignedDivision(*op, a, b))
        }
        Expr::Shift(op, a, b) => {
            let (a, b) = two(alloc, places, a.get(), b.get())?;
            Ok(Expr::Shift(*op, a, b))
        }
        Expr::Compare(op, a, b) => {
            let (a, b) = two(alloc, places, a.get(), b.get())?;
            Ok(Expr::Compare(*op, a, b))
        }
        Expr::SignedCompare(op, a, b) => {
            let (a, b) = two(alloc, places, a.get(), b.get())?;
            Ok(Expr::SignedCompare(*op, a, b))
        }
        Expr::Extend(op, w, a) => Ok(Expr::Extend(*op, *w, one(alloc, places, a.get())?)),
        Expr::Part(dropped, w, a) => Ok(Expr::Part(*dropped, *w, one(alloc, places, a.get())?)),
        Expr::Concat(a, b) => {
            let (a, b) = two(alloc, places, a.get(), b.get())?;
            Ok(Expr::Concat(a, b))
        }
        Expr::Overflow(op, a, b) => {
            let (a, b) = two(alloc, places, a.get(), b.get())?;
            Ok(Expr::Overflow(*op, a, b))
        }
        Expr::Count(op, a) => Ok(Expr::Count(*op, one(alloc, places, a.get())?)),
    }
}

#[cycle(terms)]
fn one<P: Places>(alloc: Global, places: &P, a: &Expr) -> Result<Boxed<Expr>, Memory>
    ensures { IfOk result (λ r. r ≡ all_with (P.place places.now) a.now) }
{
    let a = with_all(alloc, places, a)?;
    Ok(Boxed::new(alloc, a)?)
}

#[cycle(terms)]
fn two<P: Places>(
    alloc: Global,
    places: &P,
    a: &Expr,
    b: &Expr,
) -> Result<(Boxed<Expr>, Boxed<Expr>), Memory>
    ensures { IfOk result (λ r. (r.0 ≡ all_with (P.place places.now) a.now) × (r.1 ≡ all_with (P.place places.now) b.now)) }
{
    let a = one(alloc, places, a)?;
    let b = one(alloc, places, b)?;
    Ok((a, b))
}

/// The same of several.
pub fn with_each<P: Places>(alloc: Global, places: &P, es: &[Expr]) -> Result<Exprs, Memory>
    ensures { IfOk result (λ r. r ≡ each_with (P.place places.now) es.now) }
{
    let mut made = Items::new(alloc);
    for e in es {
        made.push(with_all(alloc, places, e)?)?;
    }
    Ok(made)
}

/// The same expression.
#[tactic(auto, using(crate::proofs::Values::with_itself))]
pub fn copy(alloc: Global, e: &Expr) -> Result<Expr, Memory>
    ensures { IfOk result (λ c. c ≡ e.now) }
{
    with_all(alloc, &Own, e)
}
