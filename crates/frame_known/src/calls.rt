//! What calls leave of a row.

ghost use Rattle.std.specs.Prelude.{◌≡◌, ◌<◌, ◌≤◌, ◌^◌};
ghost use Rattle.pcode_model.specs.Step.{in_range, in_some, proto_at};
ghost use Rattle.frame_known.specs.Rows.{all_kept, keeps};

use pcode_model::ranges::number_of;
use pcode_model::{Listing, SpaceKind, Varnode};

/// Bytes by which the stack pointer stands higher after a call of this prototype.
pub(crate) fn popped(listing: &Listing, proto: u32) -> u32
    ensures { result ≡ (proto_at listing.now proto).pop }
{
    match listing.protos.get(proto as usize) {
        Some(proto) => proto.pop,
        None => 0,
    }
}

/// The ranges that a call of this prototype keeps.
pub(crate) fn kept(listing: &Listing, proto: u32) -> &[Varnode]
    ensures { result.now ≡ (proto_at listing.now proto).keep }
{
    match listing.protos.get(proto as usize) {
        Some(proto) => proto.keep.as_slice(),
        None => &[],
    }
}

fn in_range(range: Varnode, offset: u128) -> bool
    ensures { result ≡ in_range range offset }
{
    let begin = u128::from(range.offset);
    begin <= offset && offset < begin + u128::from(range.size)
}

fn in_some(ranges: &[Varnode], offset: u128) -> bool
    ensures { result ≡ in_some ranges.now offset }
{
    for range in ranges {
        if in_range(*range, offset) {
            return true;
        }
    }
    false
}

fn all_kept(keep: &[Varnode], offset: u128, size: u32) -> bool
    requires { offset < 2 ^ 64 }
    ensures { result ≡ all_kept keep.now offset size }
{
    for byte in 0..size {
        if !in_some(keep, offset + u128::from(byte)) {
            return false;
        }
    }
    true
}

/// Whether a call that keeps these ranges leaves a range as it is.
pub(crate) fn keeps(listing: &Listing, keep: &[Varnode], range: Varnode) -> bool
    ensures { result ≡ keeps listing.now keep.now range }
{
    let spaces = listing.spaces.as_slice();
    let space = usize::from(range.space);
    space == number_of(SpaceKind::Unique, spaces)
        || space == number_of(SpaceKind::Register, spaces)
            && all_kept(keep, u128::from(range.offset), range.size)
}
