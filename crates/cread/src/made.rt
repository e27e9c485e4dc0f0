//! Expressions made of expressions.

ghost use Rattle.std.specs.Prelude.{◌≡◌, Some};
ghost use Rattle.cmeaning.specs.declared.tree.Expr.TheVariants as e;
ghost use Rattle.cread.specs.Words.{Gives};
ghost use Rattle.cread.specs.Expressions.{item, as_signed, resize as resized, divided as divided_by, compared as compared_by, joined, paired};

use crate::item::{CFault, Item, Pair, Sign};
use bits_core::Width;
use cmeaning::{
    CompareOp, CountOp, DivisionOp, Expr, ExtendOp, SignedCompareOp, SignedDivisionOp, UnaryOp,
};
use sqlite_items::Boxed;
use std::alloc::Global;

/// In an unsigned form.
fn plain(tree: Expr, width: u8) -> Item
    ensures { result ≡ item tree width }
{
    Item {
        tree,
        width,
        signed: false,
    }
}

pub fn signed(a: Item) -> Item
    ensures { result ≡ as_signed a }
{
    Item {
        tree: a.tree,
        width: a.width,
        signed: true,
    }
}

pub fn unary(alloc: Global, op: UnaryOp, a: Item) -> Result<Item, CFault>
    ensures { Gives (λ x. x) result (Some (item (e.Unary op a.tree) a.width)) }
{
    let width = a.width;
    let tree = Boxed::new(alloc, a.tree)?;
    Ok(plain(Expr::Unary(op, tree), width))
}

pub fn counted(alloc: Global, op: CountOp, a: Item) -> Result<Item, CFault>
    ensures { Gives (λ x. x) result (Some (item (e.Count op a.tree) 1)) }
{
    let tree = Boxed::new(alloc, a.tree)?;
    Ok(plain(Expr::Count(op, tree), 1))
}

pub fn part(alloc: Global, dropped: u8, w: Width, a: Item) -> Result<Item, CFault>
    ensures { Gives (λ x. x) result (Some (item (e.Part dropped w a.tree) w.bytes)) }
{
    let tree = Boxed::new(alloc, a.tree)?;
    Ok(plain(Expr::Part(dropped, w, tree), w.bytes))
}

/// What a cast to a width makes of an operand.
#[tactic(auto, unfolding(crate::specs::Expressions::resize))]
pub fn resize(alloc: Global, w: Width, a: Item) -> Result<Item, CFault>
    ensures { Gives (λ x. x) result (Some (resized w a)) }
{
    let width = a.width;
    let signed = a.signed;
    if w.bytes == width {
        return Ok(plain(a.tree, width));
    }
    let tree = Boxed::new(alloc, a.tree)?;
    if w.bytes < width {
        return Ok(plain(Expr::Part(0, w, tree), w.bytes));
    }
    if signed {
        return Ok(plain(Expr::Extend(ExtendOp::Sext, w, tree), w.bytes));
    }
    Ok(plain(Expr::Extend(ExtendOp::Zext, w, tree), w.bytes))
}

fn divided(signed: bool, op: DivisionOp, a: Boxed<Expr>, b: Boxed<Expr>) -> Expr
    ensures { result ≡ divided_by signed op a b }
{
    if !signed {
        return Expr::Division(op, a, b);
    }
    match op {
        DivisionOp::Div => Expr::SignedDivision(SignedDivisionOp::SDiv, a, b),
        DivisionOp::Rem => Expr::SignedDivision(SignedDivisionOp::SRem, a, b),
    }
}

fn compared(signed: bool, op: CompareOp, a: Boxed<Expr>, b: Boxed<Expr>) -> Expr
    ensures { result ≡ compared_by signed op a b }
{
    if !signed {
        return Expr::Compare(op, a, b);
    }
    match op {
        CompareOp::Lt => Expr::SignedCompare(SignedCompareOp::SLt, a, b),
        CompareOp::Le => Expr::SignedCompare(SignedCompareOp::SLe, a, b),
        CompareOp::Eq => Expr::Compare(CompareOp::Eq, a, b),
        CompareOp::Ne => Expr::Compare(CompareOp::Ne, a, b),
    }
}

/// Two trees on the heap.
fn both(alloc: Global, a: Expr, b: Expr) -> Result<(Boxed<Expr>, Boxed<Expr>), CFault>
    ensures { Gives (λ x. x) result (Some (a, b)) }
{
    let left = Boxed::new(alloc, a)?;
    let right = Boxed::new(alloc, b)?;
    Ok((left, right))
}

/// Two operands with a sign between them.
pub fn between(alloc: Global, sign: Sign, a: Item, b: Item) -> Result<Item, CFault>
    ensures { Gives (λ x. x) result (Some (joined sign a b)) }
{
    let signed = a.signed;
    let width = a.width;
    let (left, right) = both(alloc, a.tree, b.tree)?;
    match sign {
        Sign::Arithmetic(op) => Ok(plain(Expr::Arithmetic(op, left, right), width)),
        Sign::Division(op) => Ok(plain(divided(signed, op, left, right), width)),
        Sign::Shift(op) => Ok(plain(Expr::Shift(op, left, right), width)),
        Sign::Compare(op) => Ok(plain(compared(signed, op, left, right), 1)),
    }
}

/// A word of two operands.
pub fn pair(alloc: Global, word: Pair, a: Item, b: Item) -> Result<Item, CFault>
    ensures { Gives (λ x. x) result (Some (paired word a b)) }
{
    let width = a.width;
    let sum = width.saturating_add(b.width);
    let (left, right) = both(alloc, a.tree, b.tree)?;
    match word {
        Pair::Shift(op) => Ok(plain(Expr::Shift(op, left, right), width)),
        Pair::Concat => Ok(plain(Expr::Concat(left, right), sum)),
        Pair::Overflow(op) => Ok(plain(Expr::Overflow(op, left, right), 1)),
    }
}
