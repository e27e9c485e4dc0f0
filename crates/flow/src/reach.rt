//! The reached places.

ghost use Rattle.std.specs.Prelude.{◌≡◌, ◌<◌, [], slice_get, Some, IfOk, OnOk, vec_len};
ghost use Rattle.pcode_model.specs.Step.{first_place};
ghost use Rattle.pcode_model.specs.Flow.{AreApart};
ghost use Rattle.flow.specs.Slots.{ArePlaces, MarksReached};
ghost use Rattle.flow.specs.Edges.{targets_of, edge_targets, Inside, EdgeInside};
ghost use Rattle.flow.specs.Steps.{Noted, Expanded};

use crate::edges::{Edge, Leaving, edges_from};
use crate::marks::flags;
use bits_core::Memory;
use pcode_model::{Listing, Place};
use std::alloc::Global;

/// Which of the places a run can come to from the function's first place, the one of number `start`.
pub(crate) fn reach(
    alloc: Global,
    listing: &Listing,
    places: &[Place],
    start: usize,
) -> Result<Vec<bool>, Memory>
    requires apart { AreApart listing.now.code }
    requires places { ArePlaces listing.now places.now }
    requires start { slice_get places.now start ≡ Some (first_place listing.now) }
    ensures { IfOk result (λ reached. MarksReached listing.now [] places.now reached.items) }
{
    let mut reached = flags(alloc, places.len())?;
    let mut work = Vec::new(alloc);
    note(&mut reached, &mut work, start)?;
    while let Some(slot) = work.pop() {
        let edges = edges_from(listing, places, places[slot]);
        expand(&mut reached, &mut work, edges)?;
    }
    Ok(reached)
}

// Notes the places that the edges lead to.
fn expand(reached: &mut Vec<bool>, work: &mut Vec<usize>, edges: Leaving) -> Result<(), Memory>
    requires { Inside (vec_len reached.old) edges }
    ensures { OnOk result (Expanded reached.old.items work.old.items (targets_of edges) reached.new.items work.new.items) }
{
    match edges {
        Leaving::Ends => Ok(()),
        Leaving::One(edge) => note_target(reached, work, edge),
        Leaving::Two(first, second) => {
            note_target(reached, work, first)?;
            note_target(reached, work, second)
        }
    }
}

fn note_target(reached: &mut Vec<bool>, work: &mut Vec<usize>, edge: Edge) -> Result<(), Memory>
    requires { EdgeInside (vec_len reached.old) edge }
    ensures { OnOk result (Expanded reached.old.items work.old.items (edge_targets edge) reached.new.items work.new.items) }
{
    match edge {
        Edge::To(slot) => note(reached, work, slot),
        Edge::Faulty(_) => Ok(()),
    }
}

// Marks a place, and puts it to the work if it wasn't marked.
fn note(reached: &mut Vec<bool>, work: &mut Vec<usize>, slot: usize) -> Result<(), Memory>
    requires { slot < vec_len reached.old }
    ensures { OnOk result (Noted reached.old.items work.old.items slot reached.new.items work.new.items) }
{
    if !reached[slot] {
        reached[slot] = true;
        work.push(slot)?;
    }
    Ok(())
}
