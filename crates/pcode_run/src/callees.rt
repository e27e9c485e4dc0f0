//! The callee at an address.

ghost use Rattle.std.specs.Prelude.{◌≡◌};
ghost use Rattle.pcode_model.specs.Step.{callee_at, proto_of, returns};
ghost use Rattle.pcode_model.specs.WellFormed.{IsWellFormed};

use pcode_model::{Listing, Proto};

/// The prototype of the callee at an address, and whether it returns.
pub fn called_at(listing: &Listing, address: u64) -> (&Proto, bool)
    requires { IsWellFormed listing.now }
    ensures proto { result.0.now ≡ proto_of listing.now (callee_at listing.now address) }
    ensures returns { result.1 ≡ returns (callee_at listing.now address) }
{
    match listing.callee_at(address) {
        Some(f) => (listing.proto_at(f.proto), f.returns),
        None => (listing.own_proto(), true),
    }
}
