//! How functions are called: prototypes by their numbers, where a number of none passes nothing and has no result.

ghost use Rattle.std.specs.Prelude.{◌≡◌, None};
ghost use Rattle.pcode_model.specs.Step.{callee_at, proto_at, proto_of, returns as returns_of};

use pcode_model::{Listing, Storage, Varnode};

/// The number of the prototype of the function at an address.
pub fn proto_called(listing: &Listing, address: u64) -> u32
    ensures { proto_at listing.now result ≡ proto_of listing.now (callee_at listing.now address) }
{
    match listing.callee_at(address) {
        Some(callee) => callee.proto,
        None => listing.func.proto,
    }
}

/// Whether a call of the function at an address returns.
pub fn returns(listing: &Listing, address: u64) -> bool
    ensures { result ≡ returns_of (callee_at listing.now address) }
{
    match listing.callee_at(address) {
        Some(callee) => callee.returns,
        None => true,
    }
}

/// Where a prototype passes arguments.
pub fn arguments(listing: &Listing, proto: u32) -> &[Storage]
    ensures { result.now ≡ (proto_at listing.now proto).args }
{
    match listing.protos.get(proto as usize) {
        Some(proto) => proto.args.as_slice(),
        None => &[],
    }
}

/// The range of a prototype's result.
pub fn given(listing: &Listing, proto: u32) -> Option<Varnode>
    ensures { result ≡ (proto_at listing.now proto).gives }
{
    match listing.protos.get(proto as usize) {
        Some(proto) => proto.gives,
        None => None,
    }
}

/// The range of the function's own result.
pub fn result_range(listing: &Listing) -> Option<Varnode>
    ensures { result ≡ (proto_of listing.now None).gives }
{
    given(listing, listing.func.proto)
}
