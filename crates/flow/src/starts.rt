//! Where blocks begin.

ghost use Rattle.std.specs.Prelude.{◌≡◌, [], length, slice_get, Some, true, IfOk, vec_len};
ghost use Rattle.pcode_model.specs.Step.{first_place};
ghost use Rattle.pcode_model.specs.Flow.{AreApart, stands, is_branch as is_branch_of};
ghost use Rattle.flow.specs.Slots.{ArePlaces, MarksReached, MarksStarts, picked};
ghost use Rattle.flow.specs.Edges.{targets_of, edge_targets, Inside, EdgeInside};
ghost use Rattle.flow.specs.Marks.{Marks, MarksBranch};

use crate::edges::{Edge, Leaving, edges_from, turn};
use crate::marks::flags;
use bits_core::Memory;
use pcode_model::{Listing, Place, Turn};
use std::alloc::Global;

/// At which of the places a block begins. `start` is the number of the function's first place.
pub(crate) fn begins(
    alloc: Global,
    listing: &Listing,
    places: &[Place],
    reached: &[bool],
    start: usize,
) -> Result<Vec<bool>, Memory>
    requires apart { AreApart listing.now.code }
    requires places { ArePlaces listing.now places.now }
    requires reached { MarksReached listing.now [] places.now reached.now }
    requires start { slice_get places.now start ≡ Some (first_place listing.now) }
    ensures { IfOk result (λ begins. MarksStarts listing.now [] places.now begins.items) }
{
    let mut begins = flags(alloc, places.len())?;
    begins[start] = true;
    for slot in 0..places.len() {
        if reached[slot] {
            mark_branch(&mut begins, listing, places, places[slot]);
        }
    }
    Ok(begins)
}

pub(crate) fn is_branch(turn: Turn) -> bool
    ensures { result ≡ is_branch_of turn }
{
    matches!(turn, Turn::Branches(_) | Turn::Tests(_) | Turn::Switches)
}

// Marks the places that the branch at the place leads to, where there is one.
fn mark_branch(begins: &mut Vec<bool>, listing: &Listing, places: &[Place], place: Place)
    requires apart { AreApart listing.now.code }
    requires places { ArePlaces listing.now places.now }
    requires here { stands listing.now place ≡ true }
    requires long { vec_len begins.old ≡ length places.now }
    ensures { MarksBranch listing.now places.now place begins.old.items begins.new.items }
{
    if is_branch(turn(listing, place)) {
        mark(begins, edges_from(listing, places, place));
    }
}

fn mark(begins: &mut Vec<bool>, edges: Leaving)
    requires { Inside (vec_len begins.old) edges }
    ensures { Marks begins.old.items (targets_of edges) begins.new.items }
{
    match edges {
        Leaving::Ends => {}
        Leaving::One(edge) => mark_target(begins, edge),
        Leaving::Two(first, second) => {
            mark_target(begins, first);
            mark_target(begins, second);
        }
    }
}

fn mark_target(begins: &mut Vec<bool>, edge: Edge)
    requires { EdgeInside (vec_len begins.old) edge }
    ensures { Marks begins.old.items (edge_targets edge) begins.new.items }
{
    match edge {
        Edge::To(slot) => begins[slot] = true,
        Edge::Faulty(_) => {}
    }
}

/// The places where blocks begin, in rising order.
pub(crate) fn starts(alloc: Global, places: &[Place], begins: &[bool]) -> Result<Vec<Place>, Memory>
    requires { length begins.now ≡ length places.now }
    ensures { IfOk result (λ starts. starts.items ≡ picked begins.now places.now (length places.now)) }
{
    let mut starts = Vec::new(alloc);
    for slot in 0..places.len() {
        if begins[slot] {
            starts.push(places[slot])?;
        }
    }
    Ok(starts)
}
