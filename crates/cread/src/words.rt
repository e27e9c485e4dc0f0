//! Words, numbers and names at the front of a text.

ghost use Rattle.std.specs.Prelude.{◌≡◌, ◌≤◌, length};
ghost use Rattle.std.specs.Option.{option_map};
ghost use Rattle.listing_lines.specs.Tokens.{is_name_byte};
ghost use Rattle.cread.specs.Words.{Gives, after, ended, or_else, run_of, is_space, past_spaces as behind_spaces, name_at, number_from, decimal_at, hex_at};

use crate::item::CFault;
use listing_lines::digit;

/// What follows a word.
pub fn skip<'b>(word: &[u8], bytes: &'b [u8]) -> Option<&'b [u8]>
    ensures { option_map (λ r. r.now) result ≡ after word.now bytes.now }
{
    bytes.strip_prefix(word)
}

/// What follows a word that has to stand here.
pub fn need<'b>(word: &[u8], bytes: &'b [u8]) -> Result<&'b [u8], CFault>
    ensures { Gives (λ x. x.now) result (after word.now bytes.now) }
{
    match skip(word, bytes) {
        Some(rest) => Ok(rest),
        None => Err(CFault::NotC),
    }
}

/// What was read, up to a word. Readers hand on whole what they found, so that no early return has a part of it to drop.
pub fn ends<'b, T: Drop>(word: &[u8], found: (T, &'b [u8])) -> Result<(T, &'b [u8]), CFault>
    ensures { Gives (λ x. (x.0, x.1.now)) result (ended word.now (found.entry.0, found.entry.1.now)) }
{
    match skip(word, found.1) {
        Some(rest) => Ok((found.0, rest)),
        None => Err(CFault::NotC),
    }
}

/// What follows a word, if it stands here.
pub fn past<'b>(word: &[u8], bytes: &'b [u8]) -> &'b [u8]
    ensures { result.now ≡ or_else bytes.now (after word.now bytes.now) }
{
    match skip(word, bytes) {
        Some(rest) => rest,
        None => bytes,
    }
}

#[tactic(auto, using(crate::proofs::Fronts::run_more, crate::proofs::Fronts::run_done, crate::proofs::Fronts::run_end))]
fn spaces(bytes: &[u8]) -> usize
    ensures value { result ≡ run_of is_space bytes.now }
    ensures within { result ≤ length bytes.now }
{
    let mut n = 0;
    while n < bytes.len() {
        if bytes[n] != 32 {
            return n;
        }
        n += 1;
    }
    n
}

#[tactic(auto, unfolding(crate::specs::Words::past_spaces))]
pub fn past_spaces(bytes: &[u8]) -> &[u8]
    ensures { result.now ≡ behind_spaces bytes.now }
{
    &bytes[spaces(bytes)..]
}

fn letter_or_digit(b: u8) -> bool
    ensures { result ≡ is_name_byte b }
{
    (b >= 65 && b <= 90) || (b >= 97 && b <= 122) || b == 95 || (b >= 48 && b <= 57)
}

#[tactic(auto, using(crate::proofs::Fronts::run_more, crate::proofs::Fronts::run_done, crate::proofs::Fronts::run_end))]
fn letters(bytes: &[u8]) -> usize
    ensures value { result ≡ run_of is_name_byte bytes.now }
    ensures within { result ≤ length bytes.now }
{
    let mut n = 0;
    while n < bytes.len() {
        if !letter_or_digit(bytes[n]) {
            return n;
        }
        n += 1;
    }
    n
}

/// The letters and digits at the front, and what follows them.
#[tactic(auto, unfolding(crate::specs::Words::name_at))]
pub fn name(bytes: &[u8]) -> (&[u8], &[u8])
    ensures { (result.0.now, result.1.now) ≡ name_at bytes.now }
{
    let n = letters(bytes);
    (&bytes[..n], &bytes[n..])
}

/// The number at the front, modulo 2 to the 128, and what follows it.
fn number(radix: u8, bytes: &[u8]) -> (u128, &[u8])
    ensures { (result.0, result.1.now) ≡ number_from radix 0 bytes.now }
{
    let mut n: u128 = 0;
    let mut i = 0;
    while i < bytes.len() {
        let d = digit(bytes[i]);
        if d >= radix {
            return (n, &bytes[i..]);
        }
        n = n
            .wrapping_mul(u128::from(radix))
            .wrapping_add(u128::from(d));
        i += 1;
    }
    (n, &bytes[i..])
}

#[tactic(auto, unfolding(crate::specs::Words::decimal_at))]
pub fn decimal(bytes: &[u8]) -> (u128, &[u8])
    ensures { (result.0, result.1.now) ≡ decimal_at bytes.now }
{
    number(10, bytes)
}

#[tactic(auto, unfolding(crate::specs::Words::hex_at))]
pub fn hex(bytes: &[u8]) -> (u128, &[u8])
    ensures { (result.0, result.1.now) ≡ hex_at bytes.now }
{
    number(16, bytes)
}
