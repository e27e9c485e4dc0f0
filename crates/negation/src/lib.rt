//! The negation of a condition: what is taken where the condition isn't.
//!
//! A comparison is negated by its operation, the operands of an order turned with it, and stays as deep as it is. Any
//! other condition is compared with 0, which is one level more: a condition that is no comparison counts that level
//! beforehand, so the negation of a condition of a valid tree is one too.
#![tactic(auto)]

ghost use Rattle.std.specs.Prelude.{◌≡◌, ℕ, IfOk};
ghost use Rattle.bits_core.specs.declared.word.Word.{Word};
ghost use Rattle.cmeaning.specs.declared.tree.CompareOp.TheVariants as C;
ghost use Rattle.cmeaning.specs.declared.tree.Expr.TheVariants as E;
ghost use Rattle.rules.specs.Letters.{IsWide, IsWord, Negated};
ghost use Rattle.negation.specs.Negation.{IsNegation, Negates};

use bits_core::{Memory, Width, Word};
use cmeaning::{CompareOp, Expr, SignedCompareOp};
use sqlite_items::Boxed;
use std::alloc::Global;

// The constant 0.
fn zero(alloc: Global, width: Width) -> Result<Boxed<Expr>, Memory>
    ensures { IfOk result (λ b. (z : Word) × (IsWord width.bytes 0 z × (b ≡ E.Const z))) }
{
    Ok(Boxed::new(alloc, Expr::Const(Word::new(0, width)))?)
}

fn boxed(alloc: Global, e: Expr) -> Result<Boxed<Expr>, Memory>
    ensures { IfOk result (λ b. b ≡ e) }
{
    Ok(Boxed::new(alloc, e)?)
}

fn is_zero(alloc: Global, condition: Expr, width: Width) -> Result<Expr, Memory>
    ensures { IfOk result (λ n. (z : Word) × (IsWord width.bytes 0 z × (n ≡ E.Compare C.Eq condition (E.Const z)))) }
{
    let zero = zero(alloc, width)?;
    let condition = boxed(alloc, condition)?;
    Ok(Expr::Compare(CompareOp::Eq, condition, zero))
}

fn compare_negated(op: CompareOp, a: Boxed<Expr>, b: Boxed<Expr>) -> Expr
    ensures { Negated (E.Compare op a b) result }
{
    match op {
        CompareOp::Eq => Expr::Compare(CompareOp::Ne, a, b),
        CompareOp::Ne => Expr::Compare(CompareOp::Eq, a, b),
        CompareOp::Lt => Expr::Compare(CompareOp::Le, b, a),
        CompareOp::Le => Expr::Compare(CompareOp::Lt, b, a),
    }
}

fn signed_compare_negated(op: SignedCompareOp, a: Boxed<Expr>, b: Boxed<Expr>) -> Expr
    ensures { Negated (E.SignedCompare op a b) result }
{
    match op {
        SignedCompareOp::SLt => Expr::SignedCompare(SignedCompareOp::SLe, b, a),
        SignedCompareOp::SLe => Expr::SignedCompare(SignedCompareOp::SLt, b, a),
    }
}

fn formed(alloc: Global, condition: Expr, width: Width) -> Result<Expr, Memory>
    ensures { IfOk result (IsNegation width.bytes condition) }
{
    match condition {
        Expr::Compare(op, a, b) => Ok(compare_negated(op, a, b)),
        Expr::SignedCompare(op, a, b) => Ok(signed_compare_negated(op, a, b)),
        other => is_zero(alloc, other, width),
    }
}

/// The negation of a condition of this width. An error says that memory is wanting.
pub fn negated(alloc: Global, condition: Expr, width: Width) -> Result<Expr, Memory>
    ensures form { IfOk result (IsNegation width.bytes condition) }
    ensures meaning { IfOk result (λ n. (ws : ℕ → ℕ) → IsWide ws condition width.bytes → Negates ws condition n) }
{
    let negation = formed(alloc, condition, width)?;
    Ok(negation)
}
