//! What the words of the command line ask for.

ghost use Rattle.std.specs.Prelude.{◌≡◌, map, string_bytes};
ghost use Rattle.std.specs.Option.{option_map};
ghost use Rattle.runwords.specs.Request.{asked_by, plan_of, steps_of};

use listing_lines::decimal;

/// Which files are read, and how many steps each machine makes.
#[derive(Clone, Copy, Debug)]
pub struct Plan<'a> {
    /// The name of the file with the listing.
    pub listing: &'a str,
    /// The name of the file with the text of the C function.
    pub c_text: &'a str,
    /// The name of the file with the entry.
    pub entry: &'a str,
    /// From 0 to 100,000.
    pub steps: u32,
}

// The number that the digits write, from 0 to 100,000 and without a leading zero.
fn steps(digits: &[u8]) -> Option<u32>
    ensures { result ≡ steps_of digits.now }
{
    if digits == b"100000".as_slice() {
        return Some(100_000);
    }
    decimal(digits)
}

/// What the words ask for. None where they aren't three names of files and a number of steps.
pub fn read_words(words: &[String]) -> Option<Plan<'_>>
    ensures { option_map plan_of result ≡ asked_by (map string_bytes words.now) }
{
    if words.len() != 4 {
        return None;
    }
    let Some(steps) = steps(words[3].as_bytes()) else {
        return None;
    };
    Some(Plan {
        listing: words[0].as_str(),
        c_text: words[1].as_str(),
        entry: words[2].as_str(),
        steps,
    })
}
