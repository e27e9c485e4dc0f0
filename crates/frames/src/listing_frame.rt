//! The frame, from what is known where blocks begin.

ghost use Rattle.std.specs.Prelude.{◌≡◌, [], None, IfOk};
ghost use Rattle.frame_facts.specs.Listed.{IsFrame};
ghost use Rattle.pcode_model.specs.Flow.{IsFlow, NoFault};
ghost use Rattle.pcode_model.specs.Rules.{first_bad};
ghost use Rattle.pcode_model.specs.WellFormed.{IsWellFormed};

use crate::accesses::accesses_found;
use crate::escapes::escapes_found;
use crate::facts::facts_found;
use bits_core::Memory;
use frame_classes::variables;
use frame_known::known_facts;
use pcode_model::{Flow, Frame, Listing};
use sqlite_items::Items;
use std::alloc::Global;

/// The frame of a listing that has this flow. Every listing has one: `Memory` where memory runs out, and no other error.
pub fn frame(alloc: Global, listing: &Listing, flow: &Flow) -> Result<Frame, Memory>
    requires read { IsWellFormed listing.now }
    requires ops { first_bad listing.now ≡ None }
    requires flow { IsFlow listing.now [] flow.now }
    requires no_fault { NoFault listing.now [] }
    ensures frame { IfOk result (IsFrame listing.now [] []) }
{
    let blocks = flow.as_slice();
    let known = known_facts(alloc, listing, flow)?;
    let facts = facts_found(alloc, listing, &known, blocks)?;
    let escapes = escapes_found(alloc, listing, &known, blocks)?;
    let accesses = accesses_found(alloc, listing, &known, blocks)?;
    let classes = variables(alloc, listing, &accesses, &escapes)?;
    Ok(Frame {
        facts: Items::from_vec(facts),
        escapes: Items::from_vec(escapes),
        accesses: classes.accesses,
        variables: classes.variables,
    })
}
