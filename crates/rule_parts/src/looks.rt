//! What rules of parts look for at a place, and the piece that several make.

ghost use Rattle.std.specs.Prelude.{◌≡◌, ℕ, MatchOption};
ghost use Rattle.rule_views.specs.declared.nodes.Single.TheVariants as S;
ghost use Rattle.rule_views.specs.Sees.{IsSingle};
ghost use Rattle.rule_parts.specs.Pieces as N;

use bits_core::Width;
use cmeaning::ExtendOp;
use rule_views::{Arg, Made, Single, View};

/// A part of a word: how many low bytes are dropped, the width that is kept, and of what.
#[tactic(auto, using(crate::proofs::Pieces::no_single_part, crate::proofs::Pieces::no_part))]
pub fn part<V: View>(at: V) -> Option<(u8, Width, V)>
    ensures { MatchOption result (N.NoPart V.Sees at) (λ t. IsSingle V.Sees at (S.Part t.0 t.1) t.2) }
{
    let (node, x) = at.single()?;
    match node {
        Single::Part(k, w) => Some((k, w, x)),
        _ => None,
    }
}

/// An extension.
#[tactic(auto, using(crate::proofs::Pieces::no_single_extend, crate::proofs::Pieces::no_extend))]
pub fn extension<V: View>(at: V) -> Option<(ExtendOp, Width, V)>
    ensures { MatchOption result (N.NoExtend V.Sees at) (λ t. IsSingle V.Sees at (S.Extend t.0 t.1) t.2) }
{
    let (node, x) = at.single()?;
    match node {
        Single::Extend(op, w) => Some((op, w, x)),
        _ => None,
    }
}

/// Sub(x, k, w), or x where that is the whole of it.
#[tactic(auto, using(crate::proofs::Pieces::is_whole, crate::proofs::Pieces::past_start, crate::proofs::Pieces::other_width))]
pub fn piece<V: View>(x: V, k: u8, w: Width) -> Made<V>
    ensures { N.IsPiece V.Sees x k w result }
{
    if k == 0 {
        if x.width().bytes == w.bytes {
            return Made::Is(Arg::Place(x));
        }
    }
    Made::Single(Single::Part(k, w), Arg::Place(x))
}
