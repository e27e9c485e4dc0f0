//! Why the inputs are refused.

ghost use Rattle.std.specs.Prelude.{◌≡◌, ◌++◌, IfOk, OnOk};
ghost use Rattle.side_by_side.specs.Lines.{at_line, entry_words, line_of, words_of};

use bits_core::Memory;
use ctext::digits::{put, put_decimal};
use entrytext::EntryFault;
use refusals::{Refusal, put_words};
use std::alloc::Global;

/// Why the inputs are refused.
#[derive(Clone, Copy, Debug, PartialEq, Eq)]
pub enum InputFault {
    /// The listing is refused.
    Listing(Refusal),
    /// The C text is that of no valid function.
    NotC,
    /// The function names a space or a range that the listing doesn't have.
    Misfit,
    /// The first fault of the entry's text.
    Entry(EntryFault),
    /// Memory ran out.
    Memory,
}

/// The line that names why the inputs are refused, with its line feed.
#[tactic(auto, unfolding(crate::specs::Lines::line_of))]
pub fn fault_line(alloc: Global, input_fault: &InputFault) -> Result<Vec<u8>, Memory>
    ensures { IfOk result (λ line. line.items ≡ line_of input_fault.now) }
{
    let mut line = Vec::new(alloc);
    put(&mut line, b"runboth: ")?;
    put_fault(alloc, &mut line, input_fault)?;
    put(&mut line, b"\n")?;
    Ok(line)
}

fn put_fault(alloc: Global, out: &mut Vec<u8>, input_fault: &InputFault) -> Result<(), Memory>
    ensures { OnOk result (out.new.items ≡ out.old.items ++ words_of input_fault.now) }
{
    match input_fault {
        InputFault::Listing(refusal) => put_words(alloc, out, refusal),
        InputFault::NotC => put(out, b"not C"),
        InputFault::Misfit => put(out, b"C text doesn't fit"),
        InputFault::Entry(fault) => put_entry(alloc, out, *fault),
        InputFault::Memory => Ok(()),
    }
}

fn put_line(alloc: Global, out: &mut Vec<u8>, number: u32, word: &[u8]) -> Result<(), Memory>
    ensures { OnOk result (out.new.items ≡ out.old.items ++ at_line number word.now) }
{
    put(out, b"entry line ")?;
    put_decimal(alloc, out, u64::from(number))?;
    put(out, b": ")?;
    put(out, word)
}

fn put_entry(alloc: Global, out: &mut Vec<u8>, fault: EntryFault) -> Result<(), Memory>
    ensures { OnOk result (out.new.items ≡ out.old.items ++ entry_words fault) }
{
    match fault {
        EntryFault::Syntax(number) => put_line(alloc, out, number, b"syntax"),
        EntryFault::Order(number) => put_line(alloc, out, number, b"order"),
        EntryFault::Range(number) => put_line(alloc, out, number, b"range"),
        EntryFault::Memory => Ok(()),
    }
}
