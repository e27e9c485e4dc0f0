//! The blocks of a listing, or the fault of its flow that counts.

ghost use Rattle.std.specs.Prelude.{◌≡◌, [], ◌≤◌, length, IfOk, OnOk, IfErr};
ghost use Rattle.pcode_model.specs.declared.listing.Listing.{Listing as ListingValue};
ghost use Rattle.pcode_model.specs.Flow.{AreApart, NoFault, FirstFault, IsFlow};
ghost use Rattle.flow.specs.Answer.{IsFlowFault, IsTooMany};

use crate::blocks::blocks;
use crate::faults::{Fault, first_fault};
use crate::places::{find, places};
use crate::reach::reach;
use crate::starts::{begins, starts};
use bits_core::Memory;
use pcode_model::{Flow, FlowWhy, Listing, MAX_BLOCKS, Place, Tables};
use std::alloc::Global;

/// Why a listing has no blocks.
#[derive(Clone, Copy, Debug, PartialEq, Eq)]
pub enum FlowFault {
    /// No instruction stands where the branch at the place leads, or where the function begins.
    NoTarget(Place),
    /// The next instruction doesn't stand at address plus length.
    FallsOff(Place),
    /// A relative branch to an index below 0 or above the op count.
    BadRelative(Place),
    /// The BRANCHIND at the place has no jump table.
    NoTable(Place),
    /// The slice of the BRANCHIND at the place is entered from outside.
    TableEntered(Place),
    /// How many blocks there would be, more than `MAX_BLOCKS`.
    TooManyBlocks(u32),
    Memory,
}

impl From<Memory> for FlowFault {
    ghost use Rattle.std.specs.Prelude.{◌≡◌};
    ghost use Rattle.flow.specs.declared.answer.FlowFault.TheVariants as F;

    ghost from_gives = { λ _ e. e ≡ F.Memory };

    fn from(_: Memory) -> FlowFault {
        FlowFault::Memory
    }
}

/// The blocks of the listing's reached places, or the fault that counts: of the least reached place that has one, there
/// the first in the order of `FlowWhy`; where no place has one, too many blocks. Want of memory may come at any step, and
/// more than 2^32 - 1 ops of an instruction or blocks are want of memory.
pub fn follow(alloc: Global, listing: &Listing, tables: &Tables) -> Result<Flow, FlowFault>
    requires apart { AreApart listing.now.code }
    requires no_tables { tables.now ≡ [] }
    ensures blocks { IfOk result (λ flow. IsFlow listing.now tables.now flow) }
    ensures no_fault { OnOk result (NoFault listing.now tables.now) }
    ensures few { IfOk result (λ flow. length flow ≤ MAX_BLOCKS) }
    ensures fault { IfErr result (λ fault. IsFlowFault listing.now tables.now fault) }
{
    let places = places(alloc, listing)?;
    let entry = Place {
        address: listing.func.address,
        index: 0,
    };
    let Some(start) = find(&places, u128::from(entry.address), 0) else {
        return Err(FlowFault::NoTarget(entry));
    };
    let reached = reach(alloc, listing, &places, start)?;
    if let Some(fault) = first_fault(listing, &places, &reached) {
        return Err(refusal(fault));
    }
    let begins = begins(alloc, listing, &places, &reached, start)?;
    let starts = starts(alloc, &places, &begins)?;
    if starts.len() > MAX_BLOCKS {
        return Err(too_many(starts.len()));
    }
    let blocks = blocks(alloc, listing, &places, &reached, &begins, &starts)?;
    Ok(blocks)
}

fn refusal(fault: Fault) -> FlowFault
    ensures { (l : ListingValue) → FirstFault l [] fault.place fault.why → IsFlowFault l [] result }
{
    match fault.why {
        FlowWhy::BadRelative => FlowFault::BadRelative(fault.place),
        FlowWhy::NoTarget => FlowFault::NoTarget(fault.place),
        FlowWhy::FallsOff => FlowFault::FallsOff(fault.place),
        FlowWhy::NoTable => FlowFault::NoTable(fault.place),
        FlowWhy::TableEntered => FlowFault::TableEntered(fault.place),
    }
}

fn too_many(count: usize) -> FlowFault
    ensures { IsTooMany count result }
{
    match u32::try_from(count) {
        Ok(count) => FlowFault::TooManyBlocks(count),
        Err(_) => FlowFault::Memory,
    }
}
