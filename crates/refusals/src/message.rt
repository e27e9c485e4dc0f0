//! The words that name a refusal.
ghost use Rattle.std.specs.Prelude.{◌≡◌, ◌++◌, OnOk};
ghost use Rattle.std.specs.Fmt.{decimal};
ghost use Rattle.refusals.specs.Message.{at_line, at_place, atom_words, flow_words, rule_word, text_words, words_of};

use crate::refusal::Refusal;
use bits_core::Memory;
use ctext::digits::{put, put_decimal, put_hex};
use flow::FlowFault;
use pcode_model::{OpWhy, Place, Text};
use pcodetext::TextFault;
use stackvars::AtomFault;
use std::alloc::Global;

/// Puts the words of a refusal behind a text, without the name of the command and a line feed.
pub fn put_words(alloc: Global, out: &mut Text, refusal: &Refusal) -> Result<(), Memory>
    ensures { OnOk result (out.new.items ≡ out.old.items ++ words_of refusal.now) }
{
    match refusal {
        Refusal::Text(fault) => put_text(alloc, out, *fault),
        Refusal::Op(fault) => put_place(alloc, out, b"op 0x", fault.place, rule_word(fault.why)),
        Refusal::NotBuilt => put(out, b"not built"),
        Refusal::Flow(fault) => put_flow(alloc, out, *fault),
        Refusal::Atoms(fault) => put_atoms(alloc, out, *fault),
        Refusal::Memory => Ok(()),
    }
}

fn put_line(alloc: Global, out: &mut Text, number: u32, word: &[u8]) -> Result<(), Memory>
    ensures { OnOk result (out.new.items ≡ out.old.items ++ at_line number word.now) }
{
    put(out, b"line ")?;
    put_decimal(alloc, out, u64::from(number))?;
    put(out, b": ")?;
    put(out, word)
}

fn put_place(
    alloc: Global,
    out: &mut Text,
    what: &[u8],
    place: Place,
    word: &[u8],
) -> Result<(), Memory>
    ensures { OnOk result (out.new.items ≡ out.old.items ++ at_place what.now place word.now) }
{
    put(out, what)?;
    put_hex(out, u128::from(place.address))?;
    put(out, b".")?;
    put_decimal(alloc, out, u64::from(place.index))?;
    put(out, b": ")?;
    put(out, word)
}

fn put_count(alloc: Global, out: &mut Text, what: &[u8], count: u32) -> Result<(), Memory>
    ensures { OnOk result (out.new.items ≡ out.old.items ++ (what.now ++ decimal count)) }
{
    put(out, what)?;
    put_decimal(alloc, out, u64::from(count))
}

fn put_text(alloc: Global, out: &mut Text, fault: TextFault) -> Result<(), Memory>
    ensures { OnOk result (out.new.items ≡ out.old.items ++ text_words fault) }
{
    match fault {
        TextFault::Syntax(number) => put_line(alloc, out, number, b"syntax"),
        TextFault::Version(number) => put_line(alloc, out, number, b"version"),
        TextFault::Duplicate(number) => put_line(alloc, out, number, b"duplicate"),
        TextFault::Unknown(number) => put_line(alloc, out, number, b"unknown"),
        TextFault::Range(number) => put_line(alloc, out, number, b"range"),
        TextFault::Order(number) => put_line(alloc, out, number, b"order"),
        TextFault::Memory => Ok(()),
    }
}

fn rule_word(why: OpWhy) -> &'static [u8]
    ensures { result.now ≡ rule_word why }
{
    match why {
        OpWhy::FloatOp => b"float operation",
        OpWhy::AnalysisOp => b"analysis operation",
        OpWhy::OtherOp => b"operation left out",
        OpWhy::Arity => b"arity",
        OpWhy::BadSpace => b"space",
        OpWhy::TooWide => b"too wide",
        OpWhy::OutOfSpace => b"out of space",
        OpWhy::SizeRule => b"size rule",
    }
}

fn put_flow(alloc: Global, out: &mut Text, fault: FlowFault) -> Result<(), Memory>
    ensures { OnOk result (out.new.items ≡ out.old.items ++ flow_words fault) }
{
    match fault {
        FlowFault::NoTarget(place) => put_place(alloc, out, b"place 0x", place, b"no target"),
        FlowFault::FallsOff(place) => put_place(alloc, out, b"place 0x", place, b"falls off"),
        FlowFault::BadRelative(place) => put_place(
            alloc,
            out,
            b"place 0x",
            place,
            b"bad relative branch",
        ),
        FlowFault::NoTable(place) => put_place(alloc, out, b"place 0x", place, b"no jump table"),
        FlowFault::TableEntered(place) => put_place(
            alloc,
            out,
            b"place 0x",
            place,
            b"jump table entered",
        ),
        FlowFault::TooManyBlocks(count) => put_count(alloc, out, b"too many blocks: ", count),
        FlowFault::Memory => Ok(()),
    }
}

fn put_atoms(alloc: Global, out: &mut Text, fault: AtomFault) -> Result<(), Memory>
    ensures { OnOk result (out.new.items ≡ out.old.items ++ atom_words fault) }
{
    match fault {
        AtomFault::TooManyAtoms(count) => put_count(alloc, out, b"too many atoms: ", count),
        AtomFault::Memory => Ok(()),
    }
}
