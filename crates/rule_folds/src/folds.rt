//! The rule of nodes over constants.

ghost use Rattle.std.specs.Prelude.{ℕ, MatchOption, IsSome};
ghost use Rattle.bits_core.specs.declared.word.Word.{Word};
ghost use Rattle.cmeaning.specs.declared.tree.Expr.TheVariants as E;
ghost use Rattle.rules.specs.Folds.{Folding};
ghost use Rattle.rule_folds.specs.Values.{Divides};
ghost use Rattle.rule_views.specs.Fires.{NoneOfPair, FiredOfPair, NoneOfSingle, FiredOfSingle};
ghost use Rattle.rule_views.specs.Variables.{Variables};

use crate::values::{pair_value, single_value};
use rule_views::{Arg, Made, Pair, Single, View};

/// a node of two constants, no division by 0: the constant of its value
#[tactic(auto, using(crate::proofs::Folded::no_left, crate::proofs::Folded::no_right, crate::proofs::Folded::no_value, crate::proofs::Folded::pair_fires))]
pub fn fold_pair<V: View>(p: Pair, a: V, b: V) -> Option<Made<V>>
    ensures found { MatchOption result (NoneOfPair Folding V.Sees p a b) (FiredOfPair Folding V.Sees p a b) }
    ensures folds { (vs : Variables) (c d : Word) → V.Sees vs a (E.Const c) → V.Sees vs b (E.Const d) → (Divides p → ⊥)
        → IsSome result }
{
    let c = a.constant()?;
    let d = b.constant()?;
    let e = pair_value(p, c, d)?;
    Some(Made::Is(Arg::Const(e)))
}

/// a node of one constant: the constant of its value
#[tactic(auto, using(crate::proofs::Folded::no_operand, crate::proofs::Folded::single_fires))]
pub fn fold_single<V: View>(s: Single, a: V) -> Option<Made<V>>
    ensures { MatchOption result (NoneOfSingle Folding V.Sees s a) (FiredOfSingle Folding V.Sees s a) }
{
    let c = a.constant()?;
    let e = single_value(s, c);
    Some(Made::Is(Arg::Const(e)))
}
