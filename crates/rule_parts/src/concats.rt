//! Words put together.

ghost use Rattle.std.specs.Prelude.{◌≡◌, ◌+◌, ◌<◌, ℕ, MatchOption};
ghost use Rattle.rules.specs.Parts.{Parting};
ghost use Rattle.rule_views.specs.declared.nodes.Pair.TheVariants as P;
ghost use Rattle.rule_views.specs.declared.row.Row.TheVariants as R;
ghost use Rattle.rule_views.specs.Rows.{PartingOf};
ghost use Rattle.rule_views.specs.Fires.{NoneOfPair, FiredOfPair};
ghost use Rattle.rule_parts.specs.Joined as N;

use crate::looks::{part, piece};
use bits_core::Width;
use cmeaning::ExtendOp;
use rule_views::{Arg, Found, Made, Pair, Row, Single, View, zero};

// The width of two words put together, where it is at most 16.
fn both(high: Width, low: Width) -> Option<Width>
    ensures { MatchOption result (16 < high.bytes + low.bytes) (λ w. w.bytes ≡ high.bytes + low.bytes) }
{
    Width::new(high.bytes + low.bytes)
}

/// Concat(Sub(x, k + b, a), Sub(x, k, b)): Sub(x, k, a + b), or x
#[tactic(auto, using(crate::proofs::Joined::no_high, crate::proofs::Joined::no_low, crate::proofs::Joined::apart))]
fn of_parts<V: View>(a: V, b: V) -> Option<Made<V>>
    ensures { MatchOption result (N.NoParts V.Sees a b) (FiredOfPair (PartingOf R.Z4) V.Sees P.Concat a b) }
{
    let (j, high, x) = part(a)?;
    let (k, low, y) = part(b)?;
    if !x.same(y) {
        return None;
    }
    if j as u32 != k as u32 + low.bytes as u32 {
        return None;
    }
    let w = both(high, low)?;
    Some(piece(x, k, w))
}

/// Concat(0, y): Zext y
#[tactic(auto, using(crate::proofs::Joined::no_zero))]
fn of_zero<V: View>(a: V, b: V) -> Option<Made<V>>
    ensures { MatchOption result (N.NoZeroAbove V.Sees a b) (FiredOfPair (PartingOf R.Z5) V.Sees P.Concat a b) }
{
    let c = zero(a)?;
    let w = both(c.width, b.width())?;
    Some(Made::Single(Single::Extend(ExtendOp::Zext, w), Arg::Place(b)))
}

fn of_concat<V: View>(a: V, b: V) -> Option<Found<V>>
    ensures { MatchOption result (N.NoneOfConcat V.Sees a b)
        (λ f. FiredOfPair (PartingOf f.row) V.Sees P.Concat a b f.made) }
{
    if let Some(made) = of_parts(a, b) {
        let row = Row::Z4;
        return Some(Found { row, made });
    }
    let made = of_zero(a, b)?;
    let row = Row::Z5;
    Some(Found { row, made })
}

/// The rules of parts, of a node with two operands.
#[tactic(auto, using(crate::proofs::Joined::none_of_concat, crate::proofs::Joined::none_of_other))]
pub fn concat_rule<V: View>(p: Pair, a: V, b: V) -> Option<Found<V>>
    ensures { MatchOption result (NoneOfPair Parting V.Sees p a b)
        (λ f. FiredOfPair (PartingOf f.row) V.Sees p a b f.made) }
{
    match p {
        Pair::Concat => of_concat(a, b),
        Pair::Arithmetic(_)
        | Pair::Division(_)
        | Pair::SignedDivision(_)
        | Pair::Shift(_)
        | Pair::Compare(_)
        | Pair::SignedCompare(_)
        | Pair::Overflow(_) => None,
    }
}
