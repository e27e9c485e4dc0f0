//! A part as a name, a number or bytes.

ghost use Rattle.std.specs.Prelude.{◌≡◌, ◌≤◌, ◌^◌, ◌<◌, length, IfOk, IfSome};
ghost use Rattle.std.specs.List.{list_all};
ghost use Rattle.std.specs.Char.{digit_value};
ghost use Rattle.listing_lines.specs.Tokens.{bytes_of, decimal_of, hexadecimal_of, is_letter, is_name, is_name_byte, number_of};

use sqlite_items::Items;
use std::alloc::{AllocError, Global};

/// Whether the part is a name: a letter or `_`, then at most 63 letters, digits or `_`.
pub fn is_name(part: &[u8]) -> bool
    ensures { result ≡ is_name part.now }
{
    match part {
        [] => false,
        [first, more @ ..] => is_letter(*first) && more.len() <= 63 && are_name_bytes(more),
    }
}

fn is_letter(b: u8) -> bool
    ensures { result ≡ is_letter b }
{
    b == b'_' || (b'A' <= b && b <= b'Z') || (b'a' <= b && b <= b'z')
}

fn are_name_bytes(bytes: &[u8]) -> bool
    ensures { result ≡ list_all is_name_byte bytes.now }
{
    for b in bytes {
        if !(is_letter(*b) || (b'0' <= *b && *b <= b'9')) {
            return false;
        }
    }
    true
}

/// What a byte is as a digit: 0 to 9, 10 to 35 for a letter of either case, and 36 for any other byte.
pub fn digit(b: u8) -> u8
    ensures { result ≡ digit_value b }
{
    match b {
        b'0'..=b'9' => b - 48,
        b'A'..=b'Z' => b - 55,
        b'a'..=b'z' => b - 87,
        _ => 36,
    }
}

// The number that 1 to 16 digits write.
fn number(radix: u8, digits: &[u8]) -> Option<u64>
    requires { radix ≤ 16 }
    ensures value { result ≡ number_of radix 16 digits.now }
    ensures small { IfSome result (λ n. n < 16 ^ length digits.now) }
{
    if digits.is_empty() || digits.len() > 16 {
        return None;
    }
    let mut n = 0u64;
    for b in digits {
        let d = digit(*b);
        if d >= radix {
            return None;
        }
        n = n * u64::from(radix) + u64::from(d);
    }
    Some(n)
}

/// The number that `0x` and 1 to 16 hexadecimal digits of either case write.
pub fn hexadecimal(part: &[u8]) -> Option<u64>
    ensures { result ≡ hexadecimal_of part.now }
{
    match part {
        [b'0', b'x', digits @ ..] => number(16, digits),
        _ => None,
    }
}

/// The number that at most 5 decimal digits write, without a leading zero; below 100,000.
pub fn decimal(part: &[u8]) -> Option<u32>
    ensures { result ≡ decimal_of part.now }
{
    if part.len() > 5 || (part.len() > 1 && part[0] == b'0') {
        return None;
    }
    match number(10, part) {
        Some(n) => Some(n as u32),
        None => None,
    }
}

/// The bytes that pairs of hexadecimal digits write, at least one pair.
pub fn pairs(alloc: Global, part: &[u8]) -> Result<Option<Items<u8>>, AllocError>
    ensures { IfOk result (λ bytes. bytes ≡ bytes_of part.now) }
{
    if part.is_empty() {
        return Ok(None);
    }
    let mut bytes = Vec::with_capacity(alloc, part.len() / 2)?;
    let mut i = 0;
    while i + 1 < part.len() {
        let high = digit(part[i]);
        let low = digit(part[i + 1]);
        if high >= 16 || low >= 16 {
            return Ok(None);
        }
        bytes.push(high * 16 + low)?;
        i += 2;
    }
    if i == part.len() {
        Ok(Some(Items::from_vec(bytes)))
    } else {
        Ok(None)
    }
}
