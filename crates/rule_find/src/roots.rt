//! The rules, by the node that stands at a place.

ghost use Rattle.std.specs.Prelude.{MatchOption};
ghost use Rattle.rules.specs.Table.{Rule};
ghost use Rattle.rule_views.specs.Rows.{RuleOf};
ghost use Rattle.rule_views.specs.Fires.{NoneOfPair, FiredOfPair, NoneOfSingle, FiredOfSingle};
ghost use Rattle.rule_find.specs.Found as N;

use crate::forms::{form_of_pair, form_of_single};
use crate::orders::{changed_over, commutes};
use rule_views::{Found, Pair, Row, Single, View};

/// The first rule that matches a node with these operands.
#[tactic(auto, using(crate::proofs::Places::named))]
pub fn find_pair<V: View>(p: Pair, a: V, b: V) -> Option<Found<V>>
    ensures { MatchOption result (NoneOfPair Rule V.Sees p a b)
        (λ f. FiredOfPair (RuleOf f.row) V.Sees p a b f.made) }
{
    if let Some(made) = changed_over(p, a, b) {
        let row = Row::F2;
        return Some(Found { row, made });
    }
    if let Some(found) = form_of_pair(p, a, b) {
        return Some(found);
    }
    if !commutes(p) {
        return None;
    }
    let found = form_of_pair(p, b, a)?;
    Some(found)
}

/// The first rule that matches a node with this operand.
#[tactic(auto, using(crate::proofs::Places::named_single, crate::proofs::Places::none_of_single))]
pub fn find_single<V: View>(s: Single, a: V) -> Option<Found<V>>
    ensures { MatchOption result (NoneOfSingle Rule V.Sees s a)
        (λ f. FiredOfSingle (RuleOf f.row) V.Sees s a f.made) }
{
    let found = form_of_single(s, a)?;
    Some(found)
}

/// The first rule of the table that matches what stands here.
#[tactic(auto, using(crate::proofs::Places::none_of_leaf, crate::proofs::Places::at_pair, crate::proofs::Places::at_single))]
pub fn find<V: View>(at: V) -> Option<Found<V>>
    ensures { MatchOption result (N.NoRule V.Sees at) (λ f. N.Fired V.Sees at f) }
{
    if let Some((p, a, b)) = at.pair() {
        return find_pair(p, a, b);
    }
    let (s, a) = at.single()?;
    find_single(s, a)
}
