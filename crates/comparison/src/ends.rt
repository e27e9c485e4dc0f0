//! Ends, compared by what they show.

ghost use Rattle.std.specs.Prelude.{◌≡◌, ◌↔◌};
ghost use Rattle.std.specs.Bool.{IsTrue};
ghost use Rattle.machine.specs.TwoWay.{SameEnd, SameWord};
ghost use Rattle.run_world.specs.Meaning.{over_of, returned};
ghost use Rattle.comparison.specs.Says.{left_away};

use bits_core::Word;
use run_world::End;

/// The end, where it isn't Outside.
pub fn left_away(end: Option<End>) -> Option<End>
    ensures { over_of result ≡ left_away (over_of end) }
{
    match end {
        Some(End::Outside) => None,
        _ => end,
    }
}

fn same_word(a: Option<Word>, b: Option<Word>) -> bool
    ensures { IsTrue result ↔ SameWord (returned a) (returned b) }
{
    match (a, b) {
        (Some(a), Some(b)) => a.value == b.value,
        _ => true,
    }
}

/// Whether both are one end, where returns compare by their words if both have one.
pub fn same_end(a: Option<End>, b: Option<End>) -> bool
    ensures { IsTrue result ↔ SameEnd (over_of a) (over_of b) }
{
    match (a, b) {
        (Some(End::Returned(v)), Some(End::Returned(w))) => same_word(v, w),
        _ => a == b,
    }
}
