//! Words of up to 16 bytes as they are written.

ghost use Rattle.std.specs.Prelude.{◌≡◌};
ghost use Rattle.listing_lines.specs.Tokens.{number_of};
ghost use Rattle.entrytext.specs.Forms.{word_of};

use listing_lines::digit;

// The number that 1 to 32 hexadecimal digits write.
fn number(digits: &[u8]) -> Option<u128>
    ensures { result ≡ number_of 16 32 digits.now }
{
    if digits.is_empty() || digits.len() > 32 {
        return None;
    }
    let mut n = 0u128;
    for b in digits {
        let d = digit(*b);
        if d >= 16 {
            return None;
        }
        n = n * 16 + u128::from(d);
    }
    Some(n)
}

/// The word that `0x` and 1 to 32 hexadecimal digits of either case write.
pub fn word(part: &[u8]) -> Option<u128>
    ensures { result ≡ word_of part.now }
{
    match part {
        [b'0', b'x', digits @ ..] => number(digits),
        _ => None,
    }
}
