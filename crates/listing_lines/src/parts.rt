//! A line as parts, which one separator each keeps apart.

ghost use Rattle.std.specs.Prelude.{◌≡◌, ◌<◌, ◌≤◌, ◌∷◌, [], ℕ, length, MatchOption, IfSome};
ghost use Rattle.listing_lines.specs.Text.{left, parts_of};

use crate::lines::place_of;

/// The first part of a line, and the rest, which begins with the separator after the part.
pub fn first_part(separator: u8, line: &[u8]) -> (&[u8], &[u8])
    ensures parts { parts_of separator line.now ≡ result.0.now ∷ left separator result.1.now }
    ensures shorter { length result.1.now ≤ length line.now }
{
    let end = place_of(separator, line);
    (&line[..end], &line[end..])
}

/// The next part of a rest, and the rest after it. None where no part is left.
pub fn next_part(separator: u8, rest: &[u8]) -> Option<(&[u8], &[u8])>
    ensures parts { MatchOption result (left separator rest.now ≡ []) (λ next. left separator rest.now ≡ next.0.now ∷ left separator next.1.now) }
    ensures shorter { IfSome result (λ next. length next.1.now < length rest.now) }
{
    match rest {
        [] => None,
        [_, line @ ..] => Some(first_part(separator, line)),
    }
}
