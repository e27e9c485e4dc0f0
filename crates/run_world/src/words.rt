//! Words and their bytes in the order of a space.

ghost use Rattle.std.specs.Prelude.{◌≡◌, ◌≤◌, ◌<◌, ◌^◌, true, length, IfOk};
ghost use Rattle.bits_core.specs.Bytes.{bytes, word_bytes, word_of, number};

use bits_core::Memory;
use pcode_model::Bytes;
use std::alloc::Global;

// The number that bytes make, the least significant first.
fn number(bytes: &[u8]) -> u128
    requires { length bytes.now ≤ 16 }
    ensures value { result ≡ number bytes.now }
    ensures below { result < 256 ^ length bytes.now }
{
    let mut n = 0u128;
    let mut i = bytes.len();
    while i > 0 {
        i -= 1;
        n = n * 256 + u128::from(bytes[i]);
    }
    n
}

// The number that bytes make, the most significant first.
fn number_from_top(bytes: &[u8]) -> u128
    requires { length bytes.now ≤ 16 }
    ensures value { result ≡ word_of true bytes.now }
    ensures below { result < 256 ^ length bytes.now }
{
    let mut n = 0u128;
    for b in bytes {
        n = n * 256 + u128::from(*b);
    }
    n
}

/// The word that bytes in the order of memory make; `big` says that the most significant byte comes first.
pub fn word_of(big: bool, bytes: &[u8]) -> u128
    requires { length bytes.now ≤ 16 }
    ensures value { result ≡ word_of big bytes.now }
    ensures below { result < 256 ^ length bytes.now }
{
    if big {
        number_from_top(bytes)
    } else {
        number(bytes)
    }
}

fn low_bytes(alloc: Global, count: u32, word: u128) -> Result<Vec<u8>, Memory>
    ensures { IfOk result (λ v. v.items ≡ bytes count word) }
{
    let mut out = Vec::new(alloc);
    let mut rest = word;
    for _ in 0..count {
        out.push((rest % 256) as u8)?;
        rest /= 256;
    }
    Ok(out)
}

/// So many low bytes of a word in the order of memory.
pub fn word_bytes(alloc: Global, big: bool, count: u32, word: u128) -> Result<Bytes, Memory>
    ensures { IfOk result (λ bs. bs ≡ word_bytes big count word) }
{
    let mut out = low_bytes(alloc, count, word)?;
    if big {
        out.reverse();
    }
    Ok(Bytes::from_vec(out))
}
