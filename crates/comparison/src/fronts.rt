//! Which of two traces is a front of the other.

ghost use Rattle.std.specs.Prelude.{◌≡◌, ◌↔◌, ◌++◌, OnOk};
ghost use Rattle.std.specs.Bool.{IsTrue};
ghost use Rattle.machine.specs.TwoWay.{IsLooseFront};
ghost use Rattle.run_world.specs.Meaning.{trace_of};
ghost use Rattle.comparison.specs.Says.{Says, comparison_text, within};

use crate::ends::{left_away, same_end};
use crate::events::begin_with;
use bits_core::Memory;
use ctext::digits::put;
use run_world::Trace;

/// How the trace of the p-code run and that of the C run compare, where an end Outside is left away and returns compare
/// by their words if both have one.
#[derive(Clone, Copy, Debug, PartialEq, Eq)]
pub enum Comparison {
    /// Each is a front of the other.
    Equal,
    /// That of the p-code run alone is a front of the other.
    PInC,
    /// That of the C run alone is a front of the other.
    CInP,
    /// Neither is a front of the other.
    Apart,
}

// Whether the first is a front of the second, with an end Outside left away.
fn is_front(s: &Trace, t: &Trace) -> bool
    ensures { IsTrue result ↔ IsLooseFront (within (trace_of s.now)) (within (trace_of t.now)) }
{
    if !begin_with(t.events.as_slice(), s.events.as_slice()) {
        return false;
    }
    let end = left_away(s.end);
    end.is_none() || (s.events.len() == t.events.len() && same_end(end, left_away(t.end)))
}

pub fn compare(p: &Trace, c: &Trace) -> Comparison
    ensures { Says (within (trace_of p.now)) (within (trace_of c.now)) result }
{
    if is_front(p, c) {
        if is_front(c, p) {
            Comparison::Equal
        } else {
            Comparison::PInC
        }
    } else if is_front(c, p) {
        Comparison::CInP
    } else {
        Comparison::Apart
    }
}

/// Puts the line of a comparison behind a text.
pub fn put_comparison(out: &mut Vec<u8>, comparison: Comparison) -> Result<(), Memory>
    ensures { OnOk result (out.new.items ≡ out.old.items ++ comparison_text comparison) }
{
    match comparison {
        Comparison::Equal => put(out, b"both: equal\n"),
        Comparison::PInC => put(out, b"both: p in c\n"),
        Comparison::CInP => put(out, b"both: c in p\n"),
        Comparison::Apart => put(out, b"both: apart\n"),
    }
}
