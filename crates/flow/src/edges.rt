//! The edges that leave a place.

ghost use Rattle.std.specs.Prelude.{◌≡◌, [], true};
ghost use Rattle.pcode_model.specs.declared.listing.Listing.{Listing};
ghost use Rattle.pcode_model.specs.Places.{place, next_place, next_instruction, relative_place};
ghost use Rattle.pcode_model.specs.Step.{callee_at, returns as returns_of};
ghost use Rattle.pcode_model.specs.Flow.{AreApart, Rising, call_turn as call_turn_of, turn_of, turn_at, way_to as way_of, relative_way, branch_way, ways as ways_of, stands};
ghost use Rattle.flow.specs.Slots.{ArePlaces};
ghost use Rattle.flow.specs.Edges.{Means, AllMean};

use crate::places::find;
use instructions::{instruction, relative_index, returns};
use pcode_model::{FlowWhy, Instruction, Listing, Op, Opcode, Place, Turn, Varnode};

/// An edge: to the place of a number, or by a fault nowhere.
#[derive(Clone, Copy, Debug, PartialEq, Eq)]
pub(crate) enum Edge {
    To(usize),
    Faulty(FlowWhy),
}

impl Edge {
    ghost use Rattle.flow.specs.Edges.{target_of, fault_of};

    pub(crate) fn target(self) -> Option<usize>
        ensures { result ≡ target_of self }
    {
        match self {
            Edge::To(slot) => Some(slot),
            Edge::Faulty(_) => None,
        }
    }

    pub(crate) fn fault(self) -> Option<FlowWhy>
        ensures { result ≡ fault_of self }
    {
        match self {
            Edge::To(_) => None,
            Edge::Faulty(why) => Some(why),
        }
    }
}

/// The edges that leave one place, a branch's destination first.
#[derive(Clone, Copy, Debug, PartialEq, Eq)]
pub(crate) enum Leaving {
    Ends,
    One(Edge),
    Two(Edge, Edge),
}

fn call_turn(listing: &Listing, to: Varnode) -> Turn
    ensures { result ≡ call_turn_of (returns_of (callee_at listing.now to.offset)) }
{
    if returns(listing, to.offset) {
        Turn::GoesOn
    } else {
        Turn::Stops
    }
}

fn op_turn(listing: &Listing, op: &Op) -> Turn
    ensures { result ≡ turn_of listing.now op.now.code op.now.inputs }
{
    let first = op.input(0);
    match op.code {
        Opcode::Branch => Turn::Branches(first),
        Opcode::CBranch => Turn::Tests(first),
        Opcode::BranchInd => Turn::Switches,
        Opcode::Call => call_turn(listing, first),
        Opcode::Return => Turn::Returns,
        _ => Turn::GoesOn,
    }
}

/// How the run goes on at the place.
pub(crate) fn turn(listing: &Listing, place: Place) -> Turn
    requires { AreApart listing.now.code }
    ensures { result ≡ turn_at listing.now place }
{
    let Some(instruction) = instruction(listing, u128::from(place.address)) else {
        return Turn::Stops;
    };
    if instruction.ops.is_empty() && place.index == 0 {
        return Turn::GoesOn;
    }
    match instruction.ops.get(place.index as usize) {
        Some(op) => op_turn(listing, op),
        None => Turn::Stops,
    }
}

fn way_to(places: &[Place], why: FlowWhy, address: u128, index: usize) -> Edge
    requires { Rising places.now }
    ensures { (l : Listing) → ArePlaces l places.now → Means places.now result (way_of l why (place address index)) }
{
    match find(places, address, index) {
        Some(slot) => Edge::To(slot),
        None => Edge::Faulty(why),
    }
}

fn to_next_instruction(places: &[Place], instruction: &Instruction) -> Edge
    requires { Rising places.now }
    ensures { (l : Listing)
        → ArePlaces l places.now
        → Means places.now result (way_of l FlowWhy.FallsOff (next_instruction instruction.now)) }
{
    let end = u128::from(instruction.address) + u128::from(instruction.length);
    way_to(places, FlowWhy::FallsOff, end, 0)
}

fn to_next(places: &[Place], instruction: &Instruction, index: u32) -> Edge
    requires { Rising places.now }
    ensures { (l : Listing)
        → ArePlaces l places.now
        → Means places.now result (way_of l FlowWhy.FallsOff (next_place instruction.now index)) }
{
    let next = index as usize + 1;
    if next < instruction.ops.len() {
        way_to(
            places,
            FlowWhy::FallsOff,
            u128::from(instruction.address),
            next,
        )
    } else {
        to_next_instruction(places, instruction)
    }
}

fn relative(places: &[Place], instruction: &Instruction, index: u32, count: Varnode) -> Edge
    requires { Rising places.now }
    ensures { (l : Listing)
        → ArePlaces l places.now
        → Means places.now result (relative_way l (relative_place instruction.now index count)) }
{
    let ops = instruction.ops.len() as u128;
    match relative_index(index, count) {
        Some(target) if target < ops => {
            way_to(
                places,
                FlowWhy::FallsOff,
                u128::from(instruction.address),
                target as usize,
            )
        }
        Some(target) if target == ops => to_next_instruction(places, instruction),
        _ => Edge::Faulty(FlowWhy::BadRelative),
    }
}

fn branch(places: &[Place], instruction: &Instruction, index: u32, to: Varnode) -> Edge
    requires { Rising places.now }
    ensures { (l : Listing) → ArePlaces l places.now → Means places.now result (branch_way l instruction.now index to) }
{
    if to.space == 0 {
        relative(places, instruction, index, to)
    } else {
        way_to(places, FlowWhy::NoTarget, u128::from(to.offset), 0)
    }
}

/// The edges that leave a place of the listing that has no tables.
pub(crate) fn edges_from(listing: &Listing, places: &[Place], place: Place) -> Leaving
    requires apart { AreApart listing.now.code }
    requires places { ArePlaces listing.now places.now }
    requires here { stands listing.now place ≡ true }
    ensures { AllMean places.now result (ways_of listing.now [] place) }
{
    let Some(instruction) = instruction(listing, u128::from(place.address)) else {
        return Leaving::Ends;
    };
    let next = to_next(places, instruction, place.index);
    match turn(listing, place) {
        Turn::GoesOn => Leaving::One(next),
        Turn::Returns | Turn::Stops => Leaving::Ends,
        Turn::Branches(to) => Leaving::One(branch(places, instruction, place.index, to)),
        Turn::Tests(to) => Leaving::Two(branch(places, instruction, place.index, to), next),
        Turn::Switches => Leaving::One(Edge::Faulty(FlowWhy::NoTable)),
    }
}
