//! The families, one after the other.

ghost use Rattle.std.specs.Prelude.{ℕ, MatchOption, IsSome};
ghost use Rattle.bits_core.specs.declared.word.Word.{Word};
ghost use Rattle.cmeaning.specs.declared.tree.Expr.TheVariants as E;
ghost use Rattle.rules.specs.Table.{Form};
ghost use Rattle.rule_views.specs.Rows.{FormOf};
ghost use Rattle.rule_views.specs.Fires.{NoneOfPair, FiredOfPair, NoneOfSingle, FiredOfSingle};
ghost use Rattle.rule_views.specs.Variables.{Variables};
ghost use Rattle.rule_folds.specs.Values.{Divides};

use rule_conditions::{boolean_rule, comparison_rule};
use rule_folds::{fold_pair, fold_single};
use rule_parts::{concat_rule, part_rule};
use rule_sums::{opposite_rule, shift_rule, sum_rule};
use rule_views::{Found, Pair, Row, Single, View};

/// A rule for operands in the order in which its family names them.
#[tactic(auto, using(crate::proofs::Families::folds, crate::proofs::Families::sums, crate::proofs::Families::shifts, crate::proofs::Families::parts, crate::proofs::Families::booleans, crate::proofs::Families::comparisons, crate::proofs::Families::none_of_pair))]
pub fn form_of_pair<V: View>(p: Pair, a: V, b: V) -> Option<Found<V>>
    ensures found { MatchOption result (NoneOfPair Form V.Sees p a b)
        (λ f. FiredOfPair (FormOf f.row) V.Sees p a b f.made) }
    ensures folds { (vs : Variables) (c d : Word) → V.Sees vs a (E.Const c) → V.Sees vs b (E.Const d) → (Divides p → ⊥)
        → IsSome result }
{
    if let Some(made) = fold_pair(p, a, b) {
        let row = Row::F1;
        return Some(Found { row, made });
    }
    if let Some(found) = sum_rule(p, a, b) {
        return Some(found);
    }
    if let Some(found) = shift_rule(p, a, b) {
        return Some(found);
    }
    if let Some(found) = concat_rule(p, a, b) {
        return Some(found);
    }
    if let Some(found) = boolean_rule(p, a, b) {
        return Some(found);
    }
    let found = comparison_rule(p, a, b)?;
    Some(found)
}

/// A rule for a node with one operand.
#[tactic(auto, using(crate::proofs::Families::folds_single, crate::proofs::Families::sums_single, crate::proofs::Families::parts_single, crate::proofs::Families::none_of_single))]
pub fn form_of_single<V: View>(s: Single, a: V) -> Option<Found<V>>
    ensures { MatchOption result (NoneOfSingle Form V.Sees s a)
        (λ f. FiredOfSingle (FormOf f.row) V.Sees s a f.made) }
{
    if let Some(made) = fold_single(s, a) {
        let row = Row::F1;
        return Some(Found { row, made });
    }
    if let Some(found) = opposite_rule(s, a) {
        return Some(found);
    }
    let found = part_rule(s, a)?;
    Some(found)
}
