//! The fault that counts.

ghost use Rattle.std.specs.Prelude.{◌≡◌, [], List, MatchOption};
ghost use Rattle.pcode_model.specs.declared.listing.Place.{Place as PlaceValue};
ghost use Rattle.pcode_model.specs.Flow.{AreApart, NoFault, FirstFault, Way, rank as rank_of};
ghost use Rattle.flow.specs.Slots.{ArePlaces, MarksReached};
ghost use Rattle.flow.specs.Edges.{AllMean, IsLeastFault, IsLesser};

use crate::edges::{Leaving, edges_from};
use pcode_model::{FlowWhy, Listing, Place};

/// A reached place with a fault.
#[derive(Clone, Copy, Debug, PartialEq, Eq)]
pub(crate) struct Fault {
    pub place: Place,
    pub why: FlowWhy,
}

/// The fault that counts: of the least reached place that has one, the one of least rank.
pub(crate) fn first_fault(listing: &Listing, places: &[Place], reached: &[bool]) -> Option<Fault>
    requires apart { AreApart listing.now.code }
    requires places { ArePlaces listing.now places.now }
    requires reached { MarksReached listing.now [] places.now reached.now }
    ensures { MatchOption result (NoFault listing.now []) (λ f. FirstFault listing.now [] f.place f.why) }
{
    for slot in 0..places.len() {
        if reached[slot] {
            let place = places[slot];
            if let Some(why) = least_fault(edges_from(listing, places, place)) {
                return Some(Fault { place, why });
            }
        }
    }
    None
}

fn least_fault(edges: Leaving) -> Option<FlowWhy>
    ensures { (ps : List PlaceValue) (ws : List Way) → AllMean ps edges ws → IsLeastFault ws result }
{
    match edges {
        Leaving::Ends => None,
        Leaving::One(edge) => edge.fault(),
        Leaving::Two(first, second) => lesser(first.fault(), second.fault()),
    }
}

fn lesser(first: Option<FlowWhy>, second: Option<FlowWhy>) -> Option<FlowWhy>
    ensures { IsLesser first second result }
{
    match (first, second) {
        (Some(one), Some(other)) if rank(other) < rank(one) => second,
        (Some(_), _) => first,
        (None, _) => second,
    }
}

fn rank(why: FlowWhy) -> u8
    ensures { result ≡ rank_of why }
{
    match why {
        FlowWhy::BadRelative => 0,
        FlowWhy::NoTarget => 1,
        FlowWhy::FallsOff => 2,
        FlowWhy::NoTable => 3,
        FlowWhy::TableEntered => 4,
    }
}
