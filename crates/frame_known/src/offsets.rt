//! Offsets, and sums of them.

ghost use Rattle.std.specs.Prelude.{◌≡◌, ◌+◌, ◌≤◌, ◌<◌, ◌^◌};
ghost use Rattle.pcode_model.specs.WellFormed.{IsWellFormed};
ghost use Rattle.frame_facts.specs.Facts.{offsets as offsets_of};
ghost use Rattle.frame_known.specs.Rows.{first_of, plus, plus_if};

use pcode_model::ranges::number_of;
use pcode_model::{Listing, SpaceKind};

/// How many offsets there are.
pub(crate) fn offsets(listing: &Listing) -> u128
    requires { IsWellFormed listing.now }
    ensures value { result ≡ offsets_of listing.now }
    ensures some { 0 < result }
    ensures few { result ≤ 2 ^ 64 }
{
    let ram = number_of(SpaceKind::Ram, listing.spaces.as_slice());
    match listing.spaces.get(ram) {
        Some(space) => 1u128 << (8 * u32::from(space.size)),
        None => 1,
    }
}

/// An offset and so many more.
pub(crate) fn plus(offsets: u128, known: Option<u64>, more: u128) -> Option<u64>
    requires some { 0 < offsets }
    requires few { offsets ≤ 2 ^ 64 }
    requires more { more ≤ 2 ^ 64 }
    ensures { result ≡ plus offsets known more }
{
    match known {
        Some(offset) => Some(((u128::from(offset) + more) % offsets) as u64),
        None => None,
    }
}

/// The same where a test holds.
pub(crate) fn plus_if(test: bool, offsets: u128, known: Option<u64>, more: u128) -> Option<u64>
    requires some { 0 < offsets }
    requires few { offsets ≤ 2 ^ 64 }
    requires more { more ≤ 2 ^ 64 }
    ensures { result ≡ plus_if test offsets known more }
{
    if test {
        plus(offsets, known, more)
    } else {
        None
    }
}

pub(crate) fn first_of(one: Option<u64>, other: Option<u64>) -> Option<u64>
    ensures { result ≡ first_of one other }
{
    match one {
        Some(_) => one,
        None => other,
    }
}
