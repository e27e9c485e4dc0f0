//! A number on the command line.

ghost use Rattle.std.specs.Prelude.{◌≡◌};
ghost use Rattle.words.specs.Request.{number_in as number_of_word};

use listing_lines::digit;

/// The number that 1 to 10 decimal digits write, if it is below 2^32. Leading zeros are taken.
pub(crate) fn number_in(digits: &[u8]) -> Option<u32>
    ensures { result ≡ number_of_word digits.now }
{
    if digits.is_empty() || digits.len() > 10 {
        return None;
    }
    let mut n = 0u64;
    for b in digits {
        let d = digit(*b);
        if d >= 10 {
            return None;
        }
        n = n * 10 + u64::from(d);
    }
    if n < 0x1_0000_0000 {
        Some(n as u32)
    } else {
        None
    }
}
