//! Parts and extensions.

ghost use Rattle.std.specs.Prelude.{◌≡◌, ℕ, MatchOption};
ghost use Rattle.rules.specs.Parts.{Parting};
ghost use Rattle.rule_views.specs.declared.nodes.Single.TheVariants as S;
ghost use Rattle.rule_views.specs.declared.row.Row.TheVariants as R;
ghost use Rattle.rule_views.specs.Rows.{PartingOf};
ghost use Rattle.rule_views.specs.Fires.{NoneOfSingle, FiredOfSingle};
ghost use Rattle.rule_parts.specs.Pieces as N;

use crate::looks::{extension, part, piece};
use bits_core::{Width, Word};
use cmeaning::ExtendOp;
use rule_views::{Arg, Found, Made, Pair, Row, Single, View, operands_of};

/// Sub(Concat(x, y), k, w), wholly in y: Sub(y, k, w), or y; wholly in x: Sub(x, k - width of y, w), or x
#[tactic(auto, using(crate::proofs::Parted::no_concat))]
fn of_concat<V: View>(k: u8, w: Width, a: V) -> Option<Made<V>>
    ensures { MatchOption result (N.NoneOfConcat V.Sees a k w)
        (FiredOfSingle (PartingOf R.Z1) V.Sees (S.Part k w) a) }
{
    let (x, y) = operands_of(a, Pair::Concat)?;
    let low = y.width().bytes;
    if k as u32 + w.bytes as u32 <= low as u32 {
        return Some(piece(y, k, w));
    }
    if k < low {
        return None;
    }
    Some(piece(x, k - low, w))
}

/// Sub(Zext x, k, w), within x: Sub(x, k, w), or x; past x: 0; at k = 0 and wider than x: Zext x
#[tactic(auto, using(crate::proofs::Parted::no_extension, crate::proofs::Parted::not_zext))]
fn of_zext<V: View>(k: u8, w: Width, a: V) -> Option<Made<V>>
    ensures { MatchOption result (N.NoneOfZext V.Sees a k w)
        (FiredOfSingle (PartingOf R.Z2) V.Sees (S.Part k w) a) }
{
    let (op, _wide, x) = extension(a)?;
    if op != ExtendOp::Zext {
        return None;
    }
    let from = x.width().bytes;
    if k as u32 + w.bytes as u32 <= from as u32 {
        return Some(piece(x, k, w));
    }
    if k >= from {
        let zero = Word::new(0, w);
        return Some(Made::Is(Arg::Const(zero)));
    }
    if k != 0 {
        return None;
    }
    Some(Made::Single(Single::Extend(ExtendOp::Zext, w), Arg::Place(x)))
}

/// Sub(Sub(x, j, v), k, w): Sub(x, j + k, w)
fn of_part<V: View>(k: u8, w: Width, a: V) -> Option<Made<V>>
    ensures { MatchOption result (N.NoPart V.Sees a)
        (FiredOfSingle (PartingOf R.Z3) V.Sees (S.Part k w) a) }
{
    let (j, _wide, x) = part(a)?;
    // No more is dropped than there is.
    let dropped = j.saturating_add(k).min(x.width().bytes);
    Some(Made::Single(Single::Part(dropped, w), Arg::Place(x)))
}

/// Zext(Zext x), Sext(Zext x): Zext x; Sext(Sext x): Sext x
#[tactic(auto, using(crate::proofs::Parted::none_inside, crate::proofs::Parted::zext_fires, crate::proofs::Parted::sext_fires, crate::proofs::Parted::sext_inside))]
fn of_extension<V: View>(op: ExtendOp, w: Width, a: V) -> Option<Made<V>>
    ensures { MatchOption result (N.NoneInside V.Sees op a)
        (FiredOfSingle (PartingOf R.Z6) V.Sees (S.Extend op w) a) }
{
    let (inner, _wide, x) = extension(a)?;
    match inner {
        ExtendOp::Zext => Some(Made::Single(Single::Extend(ExtendOp::Zext, w), Arg::Place(x))),
        ExtendOp::Sext => {
            if op != ExtendOp::Sext {
                return None;
            }
            Some(Made::Single(Single::Extend(ExtendOp::Sext, w), Arg::Place(x)))
        }
    }
}

fn part_of<V: View>(k: u8, w: Width, a: V) -> Option<Found<V>>
    ensures { MatchOption result (N.NoneOfPart V.Sees a k w)
        (λ f. FiredOfSingle (PartingOf f.row) V.Sees (S.Part k w) a f.made) }
{
    if let Some(made) = of_concat(k, w, a) {
        let row = Row::Z1;
        return Some(Found { row, made });
    }
    if let Some(made) = of_zext(k, w, a) {
        let row = Row::Z2;
        return Some(Found { row, made });
    }
    let made = of_part(k, w, a)?;
    let row = Row::Z3;
    Some(Found { row, made })
}

/// The rules of parts, of a node with one operand.
#[tactic(auto, using(crate::proofs::Parted::none_of_part, crate::proofs::Parted::none_of_extend, crate::proofs::Parted::none_of_other))]
pub fn part_rule<V: View>(s: Single, a: V) -> Option<Found<V>>
    ensures { MatchOption result (NoneOfSingle Parting V.Sees s a)
        (λ f. FiredOfSingle (PartingOf f.row) V.Sees s a f.made) }
{
    match s {
        Single::Part(k, w) => part_of(k, w, a),
        Single::Extend(op, w) => {
            let made = of_extension(op, w, a)?;
            let row = Row::Z6;
            Some(Found { row, made })
        }
        Single::Unary(_) | Single::Count(_) => None,
    }
}
