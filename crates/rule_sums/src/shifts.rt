//! Shifts by a constant.

ghost use Rattle.std.specs.Prelude.{◌≡◌, ◌≤◌, ◌*◌, MatchOption};
ghost use Rattle.cmeaning.specs.declared.tree.ShiftOp.TheVariants as H;
ghost use Rattle.rules.specs.Shifts.{Shifting};
ghost use Rattle.rule_views.specs.declared.nodes.Pair.TheVariants as P;
ghost use Rattle.rule_views.specs.declared.row.Row.TheVariants as R;
ghost use Rattle.rule_views.specs.Rows.{ShiftingOf};
ghost use Rattle.rule_views.specs.Sees.{IsWideAt};
ghost use Rattle.rule_views.specs.Fires.{FiredWith, NoneOfPair, FiredOfPair};
ghost use Rattle.rule_sums.specs.Sides as N;

use bits_core::{Width, Word};
use cmeaning::ShiftOp;
use rule_views::{Arg, Found, Made, Pair, Row, View};

// The width of what is here, where a shift by c passes all its bits.
#[tactic(auto, using(crate::proofs::Shifted::not_passed))]
fn passed<V: View>(a: V, c: Word) -> Option<Width>
    ensures { MatchOption result (N.NotPassed V.Sees a c) (λ w. IsWideAt V.Sees a w.bytes × (8 * w.bytes ≤ c.value)) }
{
    let w = a.width();
    if c.value < 8 * w.bytes as u128 {
        return None;
    }
    Some(w)
}

/// A shift by 0: x
#[tactic(auto, using(crate::proofs::Shifted::nothing_fires))]
fn by_nothing<V: View>(op: ShiftOp, a: V, c: Word) -> Option<Made<V>>
    ensures { MatchOption result (c.value ≡ 0 → ⊥) (FiredWith (ShiftingOf R.A1) V.Sees (P.Shift op) a c) }
{
    if c.value != 0 {
        return None;
    }
    Some(Made::Is(Arg::Place(a)))
}

/// Shl, Shr by the bits or more: 0
#[tactic(auto, using(crate::proofs::Shifted::past_fires))]
fn past_bits<V: View>(op: ShiftOp, a: V, c: Word) -> Option<Made<V>>
    ensures { MatchOption result ((op ≡ H.Sar → ⊥) → N.NotPassed V.Sees a c)
        (FiredWith (ShiftingOf R.S1) V.Sees (P.Shift op) a c) }
{
    if op == ShiftOp::Sar {
        return None;
    }
    let w = passed(a, c)?;
    let zero = Word::new(0, w);
    Some(Made::Is(Arg::Const(zero)))
}

/// Sar by the bits or more: Sar by the bits less 1
#[tactic(auto, using(crate::proofs::Shifted::sign_fires))]
fn past_sign<V: View>(op: ShiftOp, a: V, c: Word) -> Option<Made<V>>
    ensures { MatchOption result (op ≡ H.Sar → N.NotPassed V.Sees a c)
        (FiredWith (ShiftingOf R.S2) V.Sees (P.Shift op) a c) }
{
    if op != ShiftOp::Sar {
        return None;
    }
    let w = passed(a, c)?;
    let last = Word::new(8 * w.bytes as u128 - 1, c.width);
    Some(Made::Pair(Pair::Shift(ShiftOp::Sar), Arg::Place(a), Arg::Const(last)))
}

fn shifts_by<V: View>(op: ShiftOp, a: V, c: Word) -> Option<Found<V>>
    ensures { MatchOption result (N.NoneShifted V.Sees op a c)
        (λ f. FiredWith (ShiftingOf f.row) V.Sees (P.Shift op) a c f.made) }
{
    if let Some(made) = by_nothing(op, a, c) {
        let row = Row::A1;
        return Some(Found { row, made });
    }
    if let Some(made) = past_bits(op, a, c) {
        let row = Row::S1;
        return Some(Found { row, made });
    }
    let made = past_sign(op, a, c)?;
    let row = Row::S2;
    Some(Found { row, made })
}

/// The rules of shifts.
#[tactic(auto, using(crate::proofs::Shifted::other_node, crate::proofs::Shifted::no_constant, crate::proofs::Shifted::none_shifted, crate::proofs::Shifted::shift_fires))]
pub fn shift_rule<V: View>(p: Pair, a: V, b: V) -> Option<Found<V>>
    ensures { MatchOption result (NoneOfPair Shifting V.Sees p a b)
        (λ f. FiredOfPair (ShiftingOf f.row) V.Sees p a b f.made) }
{
    match p {
        Pair::Shift(op) => {
            let c = b.constant()?;
            let found = shifts_by(op, a, c)?;
            Some(found)
        }
        _ => None,
    }
}
