//! Relative branches: the index of an instruction's op that a signed count leads to.

ghost use Rattle.std.specs.Prelude.{◌≡◌, MatchOption, pos, ◌+ℤ◌, ◌≤◌};
ghost use Rattle.bits_core.specs.Value.{signed, limit as limit_of};
ghost use Rattle.instructions.specs.Relative.{IsNegative};

use pcode_model::Varnode;

fn limit(size: u32) -> u128
    requires { size ≤ 8 }
    ensures { result ≡ limit_of size }
{
    1u128 << (8 * size)
}

/// The index of a relative branch, whose count is signed at its own size. None where it is negative.
pub fn relative_index(index: u32, count: Varnode) -> Option<u128>
    ensures { MatchOption result (IsNegative (pos index +ℤ signed count.size count.offset))
        (λ m. pos index +ℤ signed count.size count.offset ≡ pos m) }
{
    let offset = u128::from(count.offset);
    let sum = u128::from(index) + offset;
    if count.size > 8 {
        return Some(sum);
    }
    let limit = limit(count.size);
    if offset < limit / 2 {
        Some(sum)
    } else {
        sum.checked_sub(limit)
    }
}
