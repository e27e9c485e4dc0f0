//! The places of a listing in rising order.

ghost use Rattle.std.specs.Prelude.{◌≡◌, ◌+◌, ◌++◌, slice_get, IfOk, OnOk, MatchOption, Some, IsTrue, ◌↔◌};
ghost use Rattle.pcode_model.specs.Places.{place};
ghost use Rattle.pcode_model.specs.Flow.{AreApart, Rising, IsIn, IsBefore};
ghost use Rattle.flow.specs.Slots.{ArePlaces, indices, IsLowerBound, slots};

use bits_core::Memory;
use pcode_model::{Instruction, Listing, Place};
use std::alloc::Global;

/// All places of the listing, each once. An instruction has at most 2^32 - 1 places; more are want of memory.
pub(crate) fn places(alloc: Global, listing: &Listing) -> Result<Vec<Place>, Memory>
    requires { AreApart listing.now.code }
    ensures { IfOk result (λ places. ArePlaces listing.now places.items) }
{
    let mut places = Vec::new(alloc);
    for instruction in listing.code.as_slice() {
        add_places(&mut places, instruction)?;
    }
    Ok(places)
}

fn add_places(places: &mut Vec<Place>, instruction: &Instruction) -> Result<(), Memory>
    ensures { OnOk result (places.new.items ≡ places.old.items ++ indices instruction.now.address (slots instruction.now)) }
{
    let Ok(count) = u32::try_from(instruction.ops.len().max(1)) else {
        return Err(Memory);
    };
    for index in 0..count {
        let place = Place {
            address: instruction.address,
            index,
        };
        places.push(place)?;
    }
    Ok(())
}

fn comes_before(here: Place, address: u128, index: usize) -> bool
    ensures { IsTrue result ↔ IsBefore here (place address index) }
{
    let at = u128::from(here.address);
    at < address || (at == address && (here.index as usize) < index)
}

fn is_at(here: Place, address: u128, index: usize) -> bool
    ensures { IsTrue result ↔ (here ≡ place address index) }
{
    u128::from(here.address) == address && here.index as usize == index
}

/// How many of the places come before the index of the address.
pub(crate) fn lower_bound(places: &[Place], address: u128, index: usize) -> usize
    requires { Rising places.now }
    ensures { IsLowerBound places.now (place address index) result }
{
    let mut low = 0;
    let mut high = places.len();
    while low < high {
        let middle = low + (high - low) / 2;
        if comes_before(places[middle], address, index) {
            low = middle + 1;
        } else {
            high = middle;
        }
    }
    low
}

/// The number of the place at the index of the address.
pub(crate) fn find(places: &[Place], address: u128, index: usize) -> Option<usize>
    requires { Rising places.now }
    ensures { MatchOption result (IsIn (place address index) places.now → ⊥)
        (λ s. slice_get places.now s ≡ Some (place address index)) }
{
    let slot = lower_bound(places, address, index);
    if slot < places.len() && is_at(places[slot], address, index) {
        Some(slot)
    } else {
        None
    }
}
