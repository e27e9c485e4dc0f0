//! Events, compared by what they show.

ghost use Rattle.std.specs.Prelude.{◌≡◌, ◌↔◌, map};
ghost use Rattle.std.specs.Bool.{IsTrue};
ghost use Rattle.machine.specs.Trace.{Call, Other, Store};
ghost use Rattle.machine.specs.TwoWay.{IsPrefix};
ghost use Rattle.run_world.specs.Meaning.{event_of, value_of};

use bits_core::Word;
use run_world::Event;

fn same_words(a: &[Word], b: &[Word]) -> bool
    ensures { IsTrue result ↔ (map value_of a.now ≡ map value_of b.now) }
{
    if a.len() != b.len() {
        return false;
    }
    for i in 0..a.len() {
        if a[i].value != b[i].value {
            return false;
        }
    }
    true
}

fn is_call(event: &Event, target: u128, args: &[Word]) -> bool
    ensures { IsTrue result ↔ (event_of event.now ≡ Call target (map value_of args.now)) }
{
    match event {
        Event::Call {
            target: other,
            args: words,
        } => *other == target && same_words(words.as_slice(), args),
        Event::Other { .. } | Event::Store { .. } => false,
    }
}

fn is_other(event: &Event, index: u64, args: &[Word]) -> bool
    ensures { IsTrue result ↔ (event_of event.now ≡ Other index (map value_of args.now)) }
{
    match event {
        Event::Other {
            index: other,
            args: words,
        } => *other == index && same_words(words.as_slice(), args),
        Event::Call { .. } | Event::Store { .. } => false,
    }
}

fn is_store(event: &Event, space: u8, offset: u64, bytes: &[u8]) -> bool
    ensures { IsTrue result ↔ (event_of event.now ≡ Store space offset bytes.now) }
{
    match event {
        Event::Store {
            space: other,
            offset: at,
            bytes: stored,
        } => *other == space && *at == offset && stored.as_slice() == bytes,
        Event::Call { .. } | Event::Other { .. } => false,
    }
}

// Whether both show the same.
fn same_event(a: &Event, b: &Event) -> bool
    ensures { IsTrue result ↔ (event_of a.now ≡ event_of b.now) }
{
    match b {
        Event::Call { target, args } => is_call(a, *target, args.as_slice()),
        Event::Other { index, args } => is_other(a, *index, args.as_slice()),
        Event::Store {
            space,
            offset,
            bytes,
        } => is_store(a, *space, *offset, bytes.as_slice()),
    }
}

/// Whether the events begin with those of `front`.
pub fn begin_with(events: &[Event], front: &[Event]) -> bool
    ensures { IsTrue result ↔ IsPrefix (map event_of front.now) (map event_of events.now) }
{
    if events.len() < front.len() {
        return false;
    }
    for i in 0..front.len() {
        if !same_event(&events[i], &front[i]) {
            return false;
        }
    }
    true
}
