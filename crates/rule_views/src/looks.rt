//! What several rules look for at a place.

ghost use Rattle.std.specs.Prelude.{◌≡◌, ◌↔◌, ℕ, IsTrue, MatchOption};
ghost use Rattle.cmeaning.specs.declared.tree.Expr.{Expr};
ghost use Rattle.cmeaning.specs.Value.{arithmetic_of};
ghost use Rattle.rules.specs.Letters.{Folds, Cancels};
ghost use Rattle.rule_views.specs.declared.nodes.Pair.TheVariants as P;
ghost use Rattle.rule_views.specs.Beside as B;
ghost use Rattle.rule_views.specs.declared.nodes.Single.TheVariants as S;
ghost use Rattle.rule_views.specs.Sees.{IsPair, IsSingle, IsConstant, NoZero, NoNode};

use crate::nodes::{Pair, Single};
use crate::view::View;
use bits_core::{Binary, Word, binary};
use cmeaning::{ArithmeticOp, UnaryOp};

fn operation(op: ArithmeticOp) -> Binary
    ensures { result ≡ arithmetic_of op }
{
    match op {
        ArithmeticOp::Add => Binary::Add,
        ArithmeticOp::Sub => Binary::Subtract,
        ArithmeticOp::Mul => Binary::Multiply,
        ArithmeticOp::And => Binary::And,
        ArithmeticOp::Or => Binary::Or,
        ArithmeticOp::Xor => Binary::Xor,
    }
}

/// The constant that an operation on two constants of one width gives.
pub fn folded(op: ArithmeticOp, c: Word, d: Word) -> Word
    ensures { c.width.bytes ≡ d.width.bytes → Folds op c d result }
{
    let operation = operation(op);
    if operation.is_sized(c.width, d.width, c.width) {
        binary(operation, c, d, c.width)
    } else {
        c
    }
}

/// Whether an operation is Add or Sub.
pub fn is_sum(op: ArithmeticOp) -> bool
    ensures { IsTrue result ↔ B.IsSum op }
{
    match op {
        ArithmeticOp::Add | ArithmeticOp::Sub => true,
        ArithmeticOp::Mul | ArithmeticOp::And | ArithmeticOp::Or | ArithmeticOp::Xor => false,
    }
}

/// Whether an operation gives 0 of a word and itself.
pub fn cancels(op: ArithmeticOp) -> bool
    ensures { IsTrue result ↔ Cancels op }
{
    match op {
        ArithmeticOp::Sub | ArithmeticOp::Xor => true,
        ArithmeticOp::Add | ArithmeticOp::Mul | ArithmeticOp::And | ArithmeticOp::Or => false,
    }
}

/// A node of sums, differences, products or bits.
#[tactic(auto, using(crate::proofs::Fire::no_pair_arithmetic, crate::proofs::Fire::no_arithmetic))]
pub fn arithmetic<V: View>(at: V) -> Option<(ArithmeticOp, V, V)>
    ensures { MatchOption result (B.NoArithmetic V.Sees at) (λ t. IsPair V.Sees at (P.Arithmetic t.0) t.1 t.2) }
{
    let (node, a, b) = at.pair()?;
    match node {
        Pair::Arithmetic(op) => Some((op, a, b)),
        _ => None,
    }
}

/// A node of one of the two operations on one operand.
#[tactic(auto, using(crate::proofs::Fire::no_other_unary))]
pub fn unary<V: View>(at: V) -> Option<(UnaryOp, V)>
    ensures { MatchOption result (B.NoUnary V.Sees at) (λ t. IsSingle V.Sees at (S.Unary t.0) t.1) }
{
    let (node, a) = at.single()?;
    match node {
        Single::Unary(op) => Some((op, a)),
        _ => None,
    }
}

/// The operation, the letter and the constant of a node over a letter and a constant.
#[tactic(auto, using(crate::proofs::Fire::beside_right, crate::proofs::Fire::beside_left, crate::proofs::Fire::beside_neither, crate::proofs::Fire::beside_difference, crate::proofs::Fire::commutes_but))]
pub fn beside_constant<V: View>(at: V) -> Option<(ArithmeticOp, V, Word)>
    ensures { MatchOption result (B.NoBeside V.Sees at) (λ t. B.IsBeside V.Sees at t.0 t.1 t.2) }
{
    let (op, a, b) = arithmetic(at)?;
    if let Some(c) = b.constant() {
        return Some((op, a, c));
    }
    match op {
        ArithmeticOp::Sub => None,
        _ => match a.constant() {
            Some(c) => Some((op, b, c)),
            None => None,
        },
    }
}

// Whether two nodes are of one operation.
fn same_node(p: Pair, q: Pair) -> bool
    ensures { IsTrue result ↔ (p ≡ q) }
{
    match p {
        Pair::Arithmetic(op) => matches!(q, Pair::Arithmetic(other) if other == op),
        Pair::Division(op) => matches!(q, Pair::Division(other) if other == op),
        Pair::SignedDivision(op) => matches!(q, Pair::SignedDivision(other) if other == op),
        Pair::Shift(op) => matches!(q, Pair::Shift(other) if other == op),
        Pair::Compare(op) => matches!(q, Pair::Compare(other) if other == op),
        Pair::SignedCompare(op) => matches!(q, Pair::SignedCompare(other) if other == op),
        Pair::Concat => matches!(q, Pair::Concat),
        Pair::Overflow(op) => matches!(q, Pair::Overflow(other) if other == op),
    }
}

/// The operands of a node of this operation.
#[tactic(auto, using(crate::proofs::Fire::no_other_node, crate::proofs::Fire::of_node))]
pub fn operands_of<V: View>(at: V, p: Pair) -> Option<(V, V)>
    ensures { MatchOption result (NoNode V.Sees at p) (λ t. IsPair V.Sees at p t.0 t.1) }
{
    let (node, x, y) = at.pair()?;
    if !same_node(node, p) {
        return None;
    }
    Some((x, y))
}

/// The constant 0.
#[tactic(auto, using(crate::proofs::Fire::no_zero))]
pub fn zero<V: View>(at: V) -> Option<Word>
    ensures { MatchOption result (NoZero V.Sees at) (λ c. IsConstant V.Sees at c × (c.value ≡ 0)) }
{
    let c = at.constant()?;
    if c.value != 0 {
        return None;
    }
    Some(c)
}
