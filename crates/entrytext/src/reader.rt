//! Reading a text, line by line.

ghost use Rattle.std.specs.Prelude.{◌≡◌, ◌≤◌, ◌-◌, ◌^◌, length, IfErr, IfOk};
ghost use Rattle.line_reader.specs.Answer.{IsStopOf};
ghost use Rattle.line_reader.specs.Reading.{Progress, concluded};
ghost use Rattle.line_reader.specs.Reading.Read.{Good};
ghost use Rattle.pcode_model.specs.WellFormed.{IsWellFormed};
ghost use Rattle.entrytext.specs.Lies.{LiesIn};
ghost use Rattle.entrytext.specs.Meaning.{fault_at, finished, reading, start, step};
ghost use Rattle.entrytext.specs.Reader.{CanRead, IsFaultOf};

use crate::fault::{EntryFault, LineFault, Why};
use crate::partial_entry::PartialEntry;
use line_reader::{LineReader, Stop, read_lines};
use pcode_model::Listing;
use run_world::{Entry, Setting};
use std::alloc::Global;

/// What the lines of an entry are read by: the listing that it is an entry of, and what is looked up there.
#[derive(Drop)]
pub struct EntryReader<'a> {
    pub alloc: Global,
    pub listing: &'a Listing,
    pub setting: &'a Setting,
}

impl<'a> LineReader for EntryReader<'a> {
    type State = PartialEntry;

    type Why = Why;

    ghost can_read = { λ reader. CanRead reader.listing.now reader.setting.now };

    ghost step_of = { λ reader. step reader.listing.now };

    fn step(&self, state: &mut PartialEntry, line: &[u8]) -> Result<(), LineFault> {
        state.step(self.alloc, self.listing, self.setting, line)
    }
}

/// The entry of a listing that a text stands for, which lies in the listing. Otherwise the first fault of the text's
/// least faulty line, with the number of that line: Syntax, with the number of lines plus 1, where the text ends before
/// `end`.
pub fn read_entry(alloc: Global, listing: &Listing, bytes: &[u8]) -> Result<Entry, EntryFault>
    requires formed { IsWellFormed listing.now }
    requires short { length bytes.now ≤ 2 ^ 32 - 2 }
    ensures good { IfOk result (λ entry. reading listing.now bytes.now ≡ Good entry) }
    ensures lies { IfOk result (LiesIn listing.now) }
    ensures bad { IfErr result (IsFaultOf (reading listing.now bytes.now)) }
{
    let setting = match Setting::new(alloc, listing) {
        Ok(setting) => setting,
        Err(_) => return Err(EntryFault::Memory),
    };
    let reader = EntryReader {
        alloc,
        listing,
        setting: &setting,
    };
    let mut entry = PartialEntry::new(alloc);
    match read_lines(&reader, &mut entry, bytes) {
        Ok(number) => finish(entry, number),
        Err(stop) => Err(stop_fault(stop)),
    }
}

// The entry, where the text has its `end`; `number` is one more than the number of lines.
fn finish(entry: PartialEntry, number: u32) -> Result<Entry, EntryFault>
    ensures good { IfOk result (λ whole. finished number entry ≡ Good whole) }
    ensures bad { IfErr result (IsFaultOf (finished number entry)) }
{
    if !entry.ended {
        return Err(EntryFault::Syntax(number));
    }
    let mut entry = entry;
    if let Some(last) = entry.last.take() {
        if entry.done.push(last).is_err() {
            return Err(EntryFault::Memory);
        }
    }
    Ok(Entry {
        state: entry.state,
        hidden: entry.hidden,
        answers: entry.done,
    })
}

// The fault of the line where a text stops.
fn stop_fault(stop: Stop<Why>) -> EntryFault
    ensures { (p : Progress PartialEntry Why) → IsStopOf p stop → IsFaultOf (concluded fault_at finished p) result }
{
    match stop.fault {
        LineFault::Fault(Why::Syntax) => EntryFault::Syntax(stop.line),
        LineFault::Fault(Why::Order) => EntryFault::Order(stop.line),
        LineFault::Fault(Why::Range) => EntryFault::Range(stop.line),
        LineFault::Memory => EntryFault::Memory,
    }
}
