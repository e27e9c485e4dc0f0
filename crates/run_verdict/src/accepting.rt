//! The listing of an input that is run.

ghost use Rattle.std.specs.Prelude.{◌-◌, ◌^◌, ◌≤◌, length, IfErr, IfOk, OnOk, []};
ghost use Rattle.pcode_model.specs.Flow.{IsFlow, NoFault};
ghost use Rattle.pcode_model.specs.WellFormed.{IsWellFormed};
ghost use Rattle.refusals.specs.Good.{HasFewBlocks};
ghost use Rattle.run_verdict.specs.Runs.{IsCause, Runs, StopsFlow};

use crate::tables::is_runnable;
use flow::follow;
use pcode_model::{Flow, Listing, Tables, check_ops};
use pcodetext::read_listing;
use refusals::Refusal;
use std::alloc::Global;

/// A listing that is run, and its blocks.
#[derive(Drop)]
pub struct Accepted {
    pub listing: Listing,
    pub flow: Flow,
}

// The blocks, where the flow has no fault and there are few of them, or why not.
fn blocks(alloc: Global, listing: &Listing) -> Result<Flow, Refusal>
    requires { IsWellFormed listing.now }
    ensures blocks { IfOk result (λ flow. IsFlow listing.now [] flow) }
    ensures no_fault { OnOk result (NoFault listing.now []) }
    ensures few { OnOk result (HasFewBlocks listing.now) }
    ensures stops { IfErr result (StopsFlow listing.now) }
{
    let tables = Tables::new(alloc);
    match follow(alloc, listing, &tables) {
        Ok(flow) => Ok(flow),
        Err(fault) => Err(Refusal::from(fault)),
    }
}

/// The listing of an input with its blocks, or the first fault of the input: a fault of the text, an op that breaks a rule,
/// a BRANCHIND, a fault of the flow, or too many blocks.
pub fn accept(alloc: Global, bytes: &[u8]) -> Result<Accepted, Refusal>
    requires { length bytes.now ≤ 2 ^ 32 - 2 }
    ensures runs { IfOk result (λ accepted. Runs bytes.now accepted.listing) }
    ensures formed { IfOk result (λ accepted. IsWellFormed accepted.listing) }
    ensures flow { IfOk result (λ accepted. IsFlow accepted.listing [] accepted.flow) }
    ensures refused { IfErr result (IsCause bytes.now) }
{
    let listing = read_listing(alloc, bytes)?;
    check_ops(&listing)?;
    if !is_runnable(&listing) {
        return Err(Refusal::NotBuilt);
    }
    let flow = blocks(alloc, &listing)?;
    Ok(Accepted { listing, flow })
}
