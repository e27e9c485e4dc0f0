//! Offsets as signed numbers.

ghost use Rattle.std.specs.Prelude.{◌≡◌, ◌<◌, ◌≤◌, ◌^◌, neg_ℤ, pos};
ghost use Rattle.bits_core.specs.Value.{limit as limit_of};
ghost use Rattle.pcode_model.specs.WellFormed.{IsWellFormed};
ghost use Rattle.frame_facts.specs.Accesses.{signed_offset, stack_width};

use pcode_model::Listing;

fn width(listing: &Listing) -> u32
    ensures { result ≡ stack_width listing.now }
{
    match listing.stack {
        Some(stack) => stack.size,
        None => 0,
    }
}

// How many words of the stack pointer's width there are.
fn limit(listing: &Listing) -> u128
    requires { IsWellFormed listing.now }
    ensures value { result ≡ limit_of (stack_width listing.now) }
    ensures few { result ≤ 2 ^ 64 }
{
    1u128 << (8 * width(listing))
}

// So many below 0.
fn below(count: u128) -> i64
    requires some { 0 < count }
    requires few { count ≤ 2 ^ 63 }
    ensures { result ≡ neg_ℤ (pos count) }
{
    -((count - 1) as i64) - 1
}

/// The signed number that an offset means.
pub(crate) fn signed(listing: &Listing, offset: u64) -> i64
    requires read { IsWellFormed listing.now }
    requires low { offset < limit_of (stack_width listing.now) }
    ensures { result ≡ signed_offset listing.now offset }
{
    let limit = limit(listing);
    let wide = u128::from(offset);
    if wide < limit / 2 {
        offset as i64
    } else {
        below(limit - wide)
    }
}
