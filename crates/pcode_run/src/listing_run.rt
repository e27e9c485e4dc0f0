ghost use Rattle.std.specs.Prelude.{◌≡◌, IfErr, IfOk};
ghost use Rattle.pcode_model.specs.Frame.{frame_of};
ghost use Rattle.pcode_model.specs.Step.{seen_p};
ghost use Rattle.pcode_model.specs.WellFormed.{IsWellFormed};
ghost use Rattle.run_world.specs.Meaning.{entry_of, trace_of};
ghost use Rattle.pcode_memory.specs.Frame.{IsOrdered};
ghost use Rattle.pcode_run.specs.Refused.{IsRefused};

use crate::framing::lies_in_ram;
use crate::run::run_p;
use pcode_model::{Frame, Listing, OpFault, check_ops};
use run_world::{Entry, Trace};
use std::alloc::Global;

/// Why a run isn't carried out.
#[derive(Clone, Copy, Debug, PartialEq, Eq)]
pub enum NoRun {
    /// An op breaks a rule: the first one that does.
    BadOp(OpFault),
    /// A LOAD or STORE that is a frame variable's access isn't one of the first ram space.
    BadFrame,
    Memory,
}

/// What the run of a listing's p-code has shown after n steps from an entry, with the variables of a frame.
pub fn run_listing(
    alloc: Global,
    listing: &Listing,
    frame: &Frame,
    entry: &Entry,
    n: u32,
) -> Result<Trace, NoRun>
    requires formed { IsWellFormed listing.now }
    requires ordered { IsOrdered listing.now frame.now }
    ensures run { IfOk result
        (λ t. trace_of t ≡ seen_p listing.now (frame_of listing.now frame.now) (entry_of listing.now entry.now) n) }
    ensures refused { IfErr result (IsRefused listing.now frame.now) }
{
    if let Err(fault) = check_ops(listing) {
        return Err(NoRun::BadOp(fault));
    }
    if !lies_in_ram(listing, frame) {
        return Err(NoRun::BadFrame);
    }
    match run_p(alloc, listing, frame, entry, n) {
        Ok(trace) => Ok(trace),
        Err(_) => Err(NoRun::Memory),
    }
}
