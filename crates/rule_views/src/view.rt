//! A place at which a node stands.

ghost use Rattle.std.specs.Prelude.{◌≡◌, ℕ, IsTrue, MatchOption};
ghost use Rattle.cmeaning.specs.declared.tree.Expr.{Expr};
ghost use Rattle.rules.specs.Letters.{IsAtom};
ghost use Rattle.rule_views.specs.Sees as S;
ghost use Rattle.rule_views.specs.Variables.{Variables};

use crate::nodes::{Pair, Single};
use crate::row::Row;
use bits_core::{Width, Word};

/// A place in a tree or in a graph.
pub trait View: Copy {
    /// By the variables: the expressions that may stand for what is at this place.
    ghost Sees: { Variables → Self → Expr → Type 0 };

    /// The word of a constant.
    fn constant(self) -> Option<Word>
        ensures { MatchOption result (S.NoConstant Sees self) (S.IsConstant Sees self) };

    /// A node with one operand.
    fn single(self) -> Option<(Single, Self)>
        ensures { MatchOption result (S.NoSingle Sees self) (λ p. S.IsSingle Sees self p.0 p.1) };

    /// A node with two operands.
    fn pair(self) -> Option<(Pair, Self, Self)>
        ensures { MatchOption result (S.NoPair Sees self) (λ p. S.IsPair Sees self p.0 p.1 p.2) };

    /// The width of what is here.
    fn width(self) -> Width
        ensures { S.IsWideAt Sees self result.bytes };

    /// Whether both are one variable or one constant.
    fn same(self, other: Self) -> bool
        ensures yes { IsTrue result → S.IsSame Sees self other }
        ensures no { (vs : Variables) (e : Expr) → IsAtom e → Sees vs self e → Sees vs other e → IsTrue result };
}

/// An operand of what a rule makes.
#[derive(Clone, Copy)]
pub enum Arg<P> {
    Place(P),
    Const(Word),
}

/// What a rule makes.
#[derive(Clone, Copy)]
pub enum Made<P> {
    Is(Arg<P>),
    Single(Single, Arg<P>),
    Pair(Pair, Arg<P>, Arg<P>),
}

/// What the rule of a row makes.
#[derive(Clone, Copy)]
pub struct Found<P> {
    pub row: Row,
    pub made: Made<P>,
}
