//! The inputs in their order: the listing, the C text, the entry.

ghost use Rattle.std.specs.Prelude.{◌≡◌, ◌≤◌, [], length, IfErr, IfOk};
ghost use Rattle.exact_c.specs.Tree.{IsTreeOf};
ghost use Rattle.pcode_model.specs.Flow.{IsFlow};
ghost use Rattle.pcode_model.specs.WellFormed.{IsWellFormed};
ghost use Rattle.run_verdict.specs.Runs.{Runs};
ghost use Rattle.entrytext.specs.Lies.{LiesIn};
ghost use Rattle.entrytext.specs.Meaning.{reading};
ghost use Rattle.entrytext.specs.Meaning.Read.{Good};
ghost use Rattle.pcode_model.specs.Limits.{max_input};
ghost use Rattle.runwords.specs.Fetched.{AreShort};
ghost use Rattle.side_by_side.specs.Judged.{IsCause, IsEntryFault, IsFunctionFault, IsListingFault, IsParsed};

use crate::input_fault::InputFault;
use c_run::fits;
use cmeaning::CFunction;
use cread::{CFault, read_c};
use entrytext::{EntryFault, read_entry};
use pcode_model::{Flow, Listing};
use refusals::Refusal;
use run_verdict::{Accepted, accept};
use run_world::Entry;
use runwords::Inputs;
use std::alloc::Global;

/// What the inputs say: a listing with its blocks, a C function, an entry.
#[derive(Drop)]
pub struct Parsed {
    pub listing: Listing,
    pub flow: Flow,
    pub function: CFunction,
    pub entry: Entry,
}

fn listing(alloc: Global, bytes: &[u8]) -> Result<Accepted, InputFault>
    requires { length bytes.now ≤ max_input }
    ensures runs { IfOk result (λ accepted. Runs bytes.now accepted.listing) }
    ensures formed { IfOk result (λ accepted. IsWellFormed accepted.listing) }
    ensures flow { IfOk result (λ accepted. IsFlow accepted.listing [] accepted.flow) }
    ensures refused { IfErr result (IsListingFault bytes.now) }
{
    match accept(alloc, bytes) {
        Ok(accepted) => Ok(accepted),
        Err(Refusal::Memory) => Err(InputFault::Memory),
        Err(refusal) => Err(InputFault::Listing(refusal)),
    }
}

fn function(alloc: Global, bytes: &[u8]) -> Result<CFunction, InputFault>
    ensures tree { IfOk result (IsTreeOf bytes.now) }
    ensures refused { IfErr result (IsFunctionFault bytes.now) }
{
    match read_c(alloc, bytes) {
        Ok(function) => Ok(function),
        Err(CFault::NotC) => Err(InputFault::NotC),
        Err(CFault::Memory) => Err(InputFault::Memory),
    }
}

fn entry(alloc: Global, listing: &Listing, bytes: &[u8]) -> Result<Entry, InputFault>
    requires formed { IsWellFormed listing.now }
    requires short { length bytes.now ≤ max_input }
    ensures good { IfOk result (λ entry. reading listing.now bytes.now ≡ Good entry) }
    ensures lies { IfOk result (LiesIn listing.now) }
    ensures refused { IfErr result (IsEntryFault listing.now bytes.now) }
{
    match read_entry(alloc, listing, bytes) {
        Ok(entry) => Ok(entry),
        Err(EntryFault::Memory) => Err(InputFault::Memory),
        Err(fault) => Err(InputFault::Entry(fault)),
    }
}

/// What the inputs say, or the first reason why they are refused.
pub fn parse(alloc: Global, inputs: &Inputs) -> Result<Parsed, InputFault>
    requires { AreShort inputs.now }
    ensures parsed { IfOk result (λ p. IsParsed inputs.now p.listing p.function p.entry) }
    ensures formed { IfOk result (λ p. IsWellFormed p.listing) }
    ensures flow { IfOk result (λ p. IsFlow p.listing [] p.flow) }
    ensures lies { IfOk result (λ p. LiesIn p.listing p.entry) }
    ensures refused { IfErr result (IsCause inputs.now) }
{
    let Accepted { listing, flow } = listing(alloc, inputs.listing.as_slice())?;
    let function = function(alloc, inputs.c_text.as_slice())?;
    if !fits(&listing, &function) {
        return Err(InputFault::Misfit);
    }
    let entry = entry(alloc, &listing, inputs.entry.as_slice())?;
    Ok(Parsed {
        listing,
        flow,
        function,
        entry,
    })
}
