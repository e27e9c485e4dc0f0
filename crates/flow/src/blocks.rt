//! The blocks.

ghost use Rattle.std.specs.Prelude.{◌≡◌, [], ◌<◌, ◌≤◌, length, slice_get, Some, IfOk, OnOk, IsTrue, ◌↔◌};
ghost use Rattle.pcode_model.specs.Flow.{AreApart, Rising, IsIn, NoFault, IsFlow, Reached};
ghost use Rattle.flow.specs.Slots.{at, ArePlaces, MarksReached, MarksStarts, picked};
ghost use Rattle.flow.specs.Edges.{EdgeInside};
ghost use Rattle.flow.specs.Blocks.{Passed, ExitOf, EndsBy, JumpOf, TestOf, EdgeStarts, EdgeMarked};

use crate::edges::{Edge, Leaving, edges_from, turn};
use crate::places::lower_bound;
use crate::starts::is_branch;
use bits_core::Memory;
use pcode_model::{Block, Exit, Flow, Listing, Place, Places, Turn};
use std::alloc::Global;
use std::mem::replace;

/// The blocks of the reached places, none of which has a fault. `begins` marks where they begin, and `starts` are these
/// places in order, of which there are at most 2,048.
pub(crate) fn blocks(
    alloc: Global,
    listing: &Listing,
    places: &[Place],
    reached: &[bool],
    begins: &[bool],
    starts: &[Place],
) -> Result<Flow, Memory>
    requires apart { AreApart listing.now.code }
    requires places { ArePlaces listing.now places.now }
    requires reached { MarksReached listing.now [] places.now reached.now }
    requires begins { MarksStarts listing.now [] places.now begins.now }
    requires starts { starts.now ≡ picked begins.now places.now (length places.now) }
    requires few { length starts.now ≤ 2048 }
    requires sound { NoFault listing.now [] }
    ensures flow { IfOk result (λ flow. IsFlow listing.now [] flow) }
    ensures count { IfOk result (λ flow. length flow ≡ length starts.now) }
{
    let mut blocks = Flow::new(alloc);
    let mut pending = Places::new(alloc);
    for slot in 0..places.len() {
        if reached[slot] {
            let exit = exit(listing, places, begins, starts, slot);
            pass(alloc, &mut blocks, &mut pending, places[slot], exit)?;
        }
    }
    Ok(blocks)
}

// Puts the place to the pending block, and ends that where there is an exit.
fn pass(
    alloc: Global,
    blocks: &mut Flow,
    pending: &mut Places,
    place: Place,
    exit: Option<Exit>,
) -> Result<(), Memory>
    ensures { OnOk result (Passed blocks.old pending.old place exit blocks.new pending.new) }
{
    pending.push(place)?;
    match exit {
        Some(exit) => {
            let places = replace(pending, Places::new(alloc));
            blocks.push(Block { places, exit })?;
            Ok(())
        }
        None => Ok(()),
    }
}

// The exit of the block that ends at the place; None where no block ends there.
fn exit(
    listing: &Listing,
    places: &[Place],
    begins: &[bool],
    starts: &[Place],
    slot: usize,
) -> Option<Exit>
    requires apart { AreApart listing.now.code }
    requires places { ArePlaces listing.now places.now }
    requires begins { MarksStarts listing.now [] places.now begins.now }
    requires starts { starts.now ≡ picked begins.now places.now (length places.now) }
    requires few { length starts.now ≤ 2048 }
    requires sound { NoFault listing.now [] }
    requires inside { slot < length places.now }
    requires here { Reached listing.now [] (at places.now slot) }
    ensures { ExitOf listing.now starts.now places.now slot result }
{
    let place = places[slot];
    let turn = turn(listing, place);
    match edges_from(listing, places, place) {
        Leaving::Ends => Some(end(turn)),
        Leaving::One(edge) => {
            if is_branch(turn) {
                jump(places, starts, edge)
            } else if is_marked(begins, edge) {
                jump(places, starts, edge)
            } else {
                None
            }
        }
        Leaving::Two(taken, other) => test(places, starts, taken, other),
    }
}

fn end(turn: Turn) -> Exit
    ensures { EndsBy turn result }
{
    match turn {
        Turn::Returns => Exit::Return,
        _ => Exit::Stop,
    }
}

fn is_marked(begins: &[bool], edge: Edge) -> bool
    requires { EdgeInside (length begins.now) edge }
    ensures { IsTrue result ↔ EdgeMarked begins.now edge }
{
    match edge {
        Edge::To(slot) => begins[slot],
        Edge::Faulty(_) => false,
    }
}

// The number of the block that begins at the place.
fn number(starts: &[Place], place: Place) -> u32
    requires rising { Rising starts.now }
    requires few { length starts.now ≤ 2048 }
    requires member { IsIn place starts.now }
    ensures { slice_get starts.now result ≡ Some place }
{
    lower_bound(starts, u128::from(place.address), place.index as usize) as u32
}

fn jump(places: &[Place], starts: &[Place], edge: Edge) -> Option<Exit>
    requires rising { Rising starts.now }
    requires few { length starts.now ≤ 2048 }
    requires inside { EdgeInside (length places.now) edge }
    requires member { EdgeStarts places.now starts.now edge }
    ensures { JumpOf places.now starts.now edge result }
{
    match edge {
        Edge::To(slot) => Some(Exit::Jump(number(starts, places[slot]))),
        Edge::Faulty(_) => None,
    }
}

fn test(places: &[Place], starts: &[Place], taken: Edge, other: Edge) -> Option<Exit>
    requires rising { Rising starts.now }
    requires few { length starts.now ≤ 2048 }
    requires taken_inside { EdgeInside (length places.now) taken }
    requires taken_member { EdgeStarts places.now starts.now taken }
    requires other_inside { EdgeInside (length places.now) other }
    requires other_member { EdgeStarts places.now starts.now other }
    ensures { TestOf places.now starts.now taken other result }
{
    match taken {
        Edge::To(taken) => match other {
            Edge::To(other) => {
                let taken = number(starts, places[taken]);
                let other = number(starts, places[other]);
                Some(Exit::Test { taken, other })
            }
            Edge::Faulty(_) => None,
        },
        Edge::Faulty(_) => None,
    }
}
