// Which inputs are accepted, and why the others are refused.
ghost use Rattle.std.specs.Prelude.{◌≡◌, ◌-◌, ◌^◌, ◌≤◌, length, IfErr, IfOk, [], None, OnOk};
ghost use Rattle.frame_facts.specs.Listed.{IsFrame};
ghost use Rattle.pcode_model.specs.Atoms.{AreAtoms};
ghost use Rattle.pcode_model.specs.Flow.{IsFlow, NoFault};
ghost use Rattle.pcode_model.specs.Limits.{max_atoms, max_blocks};
ghost use Rattle.pcode_model.specs.Rules.{first_bad};
ghost use Rattle.pcode_model.specs.WellFormed.{IsWellFormed};
ghost use Rattle.pipeline.specs.Verdict.{Accepts, IsCause, Stops};
ghost use Rattle.pipeline.specs.Passed.{HasPassed};

use flow::follow;
use frames::frame;
use pcode_model::{Atoms, Flow, Frame, Listing, Tables, check_ops};
use pcodetext::read_listing;
use refusals::Refusal;
use stackvars::atoms;
use std::alloc::Global;
use supported::is_supported;

/// A listing that is accepted, its blocks, its frame and its atoms.
#[derive(Drop)]
pub struct Accepted {
    pub listing: Listing,
    pub flow: Flow,
    pub frame: Frame,
    pub atoms: Atoms,
}

/// The listing of an input with its blocks, frame and atoms, or the first fault of the input: a fault of the text, an op that
/// breaks a rule, a listing that isn't built, a fault of the flow, too many blocks, or too many atoms.
pub fn accept(alloc: Global, bytes: &[u8]) -> Result<Accepted, Refusal>
    requires { length bytes.now ≤ 2 ^ 32 - 2 }
    ensures accepted { IfOk result (λ accepted. Accepts bytes.now accepted.listing) }
    ensures passed { IfOk result HasPassed }
    ensures refused { IfErr result (IsCause bytes.now) }
{
    let listing = read_listing(alloc, bytes)?;
    check_ops(&listing)?;
    if !is_supported(&listing) {
        return Err(Refusal::NotBuilt);
    }
    let flow = blocks(alloc, &listing)?;
    let frame = frame(alloc, &listing, &flow)?;
    let atoms = variables(alloc, &listing, &flow, &frame)?;
    Ok(Accepted {
        listing,
        flow,
        frame,
        atoms,
    })
}

/// The blocks, or the first fault of the flow.
pub(crate) fn blocks(alloc: Global, listing: &Listing) -> Result<Flow, Refusal>
    requires formed { IsWellFormed listing.now }
    ensures blocks { IfOk result (λ flow. IsFlow listing.now [] flow) }
    ensures no_fault { OnOk result (NoFault listing.now []) }
    ensures few { IfOk result (λ flow. length flow ≤ max_blocks) }
    ensures stops { IfErr result (λ fault. Stops listing.now fault) }
{
    let tables = Tables::new(alloc);
    match follow(alloc, listing, &tables) {
        Ok(flow) => Ok(flow),
        Err(fault) => Err(Refusal::from(fault)),
    }
}

/// The atoms: each is a variable.
pub(crate) fn variables(
    alloc: Global,
    listing: &Listing,
    flow: &Flow,
    frame: &Frame,
) -> Result<Atoms, Refusal>
    requires formed { IsWellFormed listing.now }
    requires ops { first_bad listing.now ≡ None }
    requires flow { IsFlow listing.now [] flow.now }
    requires no_fault { NoFault listing.now [] }
    requires few { length flow.now ≤ max_blocks }
    requires frame { IsFrame listing.now [] [] frame.now }
    ensures atoms { IfOk result (λ atoms. AreAtoms listing.now [] frame.now atoms) }
    ensures few { IfOk result (λ atoms. length atoms ≤ max_atoms) }
    ensures stops { IfErr result (λ fault. Stops listing.now fault) }
{
    match atoms(alloc, listing, flow, frame) {
        Ok(atoms) => Ok(atoms),
        Err(fault) => Err(Refusal::from(fault)),
    }
}
