//! The lines of a trace.

ghost use Rattle.std.specs.Prelude.{◌≡◌, ◌++◌, map, OnOk};
ghost use Rattle.tracetext.specs.Text.{end_text, event_text, events_text, number_text, over_text, pair_text, pairs_text, returned_text, space_text, store_text, trace_text, words_text};
ghost use Rattle.run_world.specs.Meaning.{end_of, event_of, over_of, returned, trace_of, value_of};

use bits_core::{Memory, Word};
use ctext::digits::{put, put_hex};
use pcode_model::Listing;
use run_world::{End, Event, Trace};

fn put_number(out: &mut Vec<u8>, n: u128) -> Result<(), Memory>
    ensures { OnOk result (out.new.items ≡ out.old.items ++ number_text n) }
{
    put(out, b" 0x")?;
    put_hex(out, n)
}

fn put_words(out: &mut Vec<u8>, words: &[Word]) -> Result<(), Memory>
    ensures { OnOk result (out.new.items ≡ out.old.items ++ words_text (map value_of words.now)) }
{
    for w in words {
        put_number(out, w.value)?;
    }
    Ok(())
}

fn put_pair(out: &mut Vec<u8>, byte: u8) -> Result<(), Memory>
    ensures { OnOk result (out.new.items ≡ out.old.items ++ pair_text byte) }
{
    if byte < 16 {
        put(out, b"0")?;
        return put_hex(out, u128::from(byte));
    }
    put_hex(out, u128::from(byte))
}

fn put_pairs(out: &mut Vec<u8>, bytes: &[u8]) -> Result<(), Memory>
    ensures { OnOk result (out.new.items ≡ out.old.items ++ pairs_text bytes.now) }
{
    for b in bytes {
        put_pair(out, *b)?;
    }
    Ok(())
}

fn put_space(out: &mut Vec<u8>, listing: &Listing, space: u8) -> Result<(), Memory>
    ensures { OnOk result (out.new.items ≡ out.old.items ++ space_text listing.now space) }
{
    match listing.spaces.get(usize::from(space)) {
        Some(space) => put(out, space.name.as_slice()),
        None => Ok(()),
    }
}

fn put_call(out: &mut Vec<u8>, word: &[u8], number: u128, args: &[Word]) -> Result<(), Memory>
    ensures { OnOk result (out.new.items ≡ out.old.items ++ (word.now ++ (number_text number ++ words_text (map value_of args.now)))) }
{
    put(out, word)?;
    put_number(out, number)?;
    put_words(out, args)
}

fn put_store(
    out: &mut Vec<u8>,
    listing: &Listing,
    space: u8,
    offset: u64,
    bytes: &[u8],
) -> Result<(), Memory>
    ensures { OnOk result (out.new.items ≡ out.old.items ++ store_text listing.now space offset bytes.now) }
{
    put(out, b"store ")?;
    put_space(out, listing, space)?;
    put(out, b":0x")?;
    put_hex(out, u128::from(offset))?;
    put(out, b" ")?;
    put_pairs(out, bytes)
}

fn put_event(out: &mut Vec<u8>, listing: &Listing, event: &Event) -> Result<(), Memory>
    ensures { OnOk result (out.new.items ≡ out.old.items ++ event_text listing.now (event_of event.now)) }
{
    match event {
        Event::Call { target, args } => put_call(out, b"call", *target, args.as_slice()),
        Event::Other { index, args } => {
            put_call(out, b"other", u128::from(*index), args.as_slice())
        }
        Event::Store {
            space,
            offset,
            bytes,
        } => put_store(out, listing, *space, *offset, bytes.as_slice()),
    }
}

fn put_returned(out: &mut Vec<u8>, word: Option<Word>) -> Result<(), Memory>
    ensures { OnOk result (out.new.items ≡ out.old.items ++ returned_text (returned word)) }
{
    put(out, b"returned")?;
    match word {
        Some(word) => put_number(out, word.value),
        None => Ok(()),
    }
}

fn put_end(out: &mut Vec<u8>, end: End) -> Result<(), Memory>
    ensures { OnOk result (out.new.items ≡ out.old.items ++ end_text (end_of end)) }
{
    match end {
        End::Returned(word) => put_returned(out, word),
        End::DivZero => put(out, b"divzero"),
        End::ReadOnlyWrite => put(out, b"readonly"),
        End::NoAnswer => put(out, b"noanswer"),
        End::NoReturn => put(out, b"noreturn"),
        End::Outside => put(out, b"outside"),
        End::BadTarget => put(out, b"badtarget"),
        End::Undefined => put(out, b"undefined"),
    }
}

fn put_over(out: &mut Vec<u8>, end: Option<End>) -> Result<(), Memory>
    ensures { OnOk result (out.new.items ≡ out.old.items ++ over_text (over_of end)) }
{
    match end {
        Some(end) => put_end(out, end),
        None => put(out, b"going"),
    }
}

fn put_events(
    out: &mut Vec<u8>,
    listing: &Listing,
    side: &[u8],
    events: &[Event],
) -> Result<(), Memory>
    ensures { OnOk result (out.new.items ≡ out.old.items ++ events_text listing.now side.now (map event_of events.now)) }
{
    for event in events {
        put(out, side)?;
        put_event(out, listing, event)?;
        put(out, b"\n")?;
    }
    Ok(())
}

/// Puts the lines of a trace behind a text, each after the side, which is `p ` or `c `.
pub fn put_trace(
    out: &mut Vec<u8>,
    listing: &Listing,
    side: &[u8],
    trace: &Trace,
) -> Result<(), Memory>
    ensures { OnOk result (out.new.items ≡ out.old.items ++ trace_text listing.now side.now (trace_of trace.now)) }
{
    put_events(out, listing, side, trace.events.as_slice())?;
    put(out, side)?;
    put_over(out, trace.end)?;
    put(out, b"\n")
}
