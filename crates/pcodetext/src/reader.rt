//! Reading a text, line by line.

ghost use Rattle.std.specs.Prelude.{◌≡◌, ◌≤◌, ◌-◌, ◌^◌, length, ⊤, IfErr, IfOk};
ghost use Rattle.line_reader.specs.Answer.{IsStopOf};
ghost use Rattle.line_reader.specs.Reading.{Progress, concluded};
ghost use Rattle.line_reader.specs.Reading.Read.{Good};
ghost use Rattle.pcode_model.specs.WellFormed.{IsWellFormed};
ghost use Rattle.pcodetext.specs.Meaning.{fault_at, finished, reading, step};
ghost use Rattle.pcodetext.specs.Reader.{IsFaultOf};

use crate::fault::{LineFault, TextFault, Why};
use crate::partial_listing::PartialListing;
use line_reader::{LineReader, Stop, read_lines};
use pcode_model::{Function, Listing};
use std::alloc::Global;

/// What the lines of a listing are read by.
#[derive(Drop)]
pub struct ListingReader {
    pub alloc: Global,
}

impl LineReader for ListingReader {
    type State = PartialListing;

    type Why = Why;

    ghost can_read = { λ _. ⊤ };

    ghost step_of = { λ _. step };

    fn step(&self, state: &mut PartialListing, line: &[u8]) -> Result<(), LineFault> {
        state.step(self.alloc, line)
    }
}

/// The listing that a text stands for. Otherwise the first fault of its least faulty line, with the number of that
/// line: Syntax, with the number of lines plus 1, where the text ends before `end`.
pub fn read_listing(alloc: Global, bytes: &[u8]) -> Result<Listing, TextFault>
    requires { length bytes.now ≤ 2 ^ 32 - 2 }
    ensures good { IfOk result (λ listing. reading bytes.now ≡ Good listing) }
    ensures formed { IfOk result IsWellFormed }
    ensures bad { IfErr result (IsFaultOf (reading bytes.now)) }
{
    let mut said = match PartialListing::new(alloc) {
        Ok(said) => said,
        Err(_) => return Err(TextFault::Memory),
    };
    let reader = ListingReader { alloc };
    match read_lines(&reader, &mut said, bytes) {
        Ok(number) => finish(said, number),
        Err(stop) => Err(stop_fault(stop)),
    }
}

// The listing, where the text has its `end`; `number` is one more than the number of lines. What can fail is done
// while the lines are whole.
fn finish(mut said: PartialListing, number: u32) -> Result<Listing, TextFault>
    ensures good { IfOk result (λ listing. finished number said ≡ Good listing) }
    ensures bad { IfErr result (IsFaultOf (finished number said)) }
{
    let Some(version) = said.version else {
        return Err(TextFault::Syntax(number));
    };
    if !said.ended || said.func.is_none() {
        return Err(TextFault::Syntax(number));
    }
    if let Some(last) = said.last.take() {
        match said.done.push(last) {
            Ok(()) => {}
            Err(_) => return Err(TextFault::Memory),
        }
    }
    match said.func.take() {
        Some(func) => Ok(said.into_listing(version, func)),
        None => Err(TextFault::Syntax(number)),
    }
}

impl PartialListing {
    // The listing of a version and a function, where the last instruction stands among those before it.
    fn into_listing(self, version: u8, func: Function) -> Listing
        ensures { result ≡ record { version = version; spaces = self.spaces; stack = self.stack; protos = self.protos; func = func; callees = self.callees; fixed = self.fixed; code = self.done } }
    {
        let PartialListing {
            version: _,
            spaces,
            stack,
            protos,
            func: _,
            callees,
            fixed,
            done,
            last: _,
            ops: _,
            ended: _,
        } = self;
        Listing {
            version,
            spaces: spaces.into_items(),
            stack,
            protos: protos.into_items(),
            func,
            callees: callees.into_callees(),
            fixed: fixed.into_items(),
            code: done,
        }
    }
}

// The fault of the line where a text stops.
fn stop_fault(stop: Stop<Why>) -> TextFault
    ensures { (p : Progress PartialListing Why) → IsStopOf p stop → IsFaultOf (concluded fault_at finished p) result }
{
    match stop.fault {
        LineFault::Fault(Why::Version) => TextFault::Version(stop.line),
        LineFault::Fault(Why::Syntax) => TextFault::Syntax(stop.line),
        LineFault::Fault(Why::Order) => TextFault::Order(stop.line),
        LineFault::Fault(Why::Unknown) => TextFault::Unknown(stop.line),
        LineFault::Fault(Why::Duplicate) => TextFault::Duplicate(stop.line),
        LineFault::Fault(Why::Range) => TextFault::Range(stop.line),
        LineFault::Memory => TextFault::Memory,
    }
}
