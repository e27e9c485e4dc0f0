//! A text as lines.

ghost use Rattle.std.specs.Prelude.{◌≡◌, ◌<◌, ◌≤◌, ◌∷◌, ℕ, length};
ghost use Rattle.listing_lines.specs.Text.{lines_of, place_of, without_cr};

/// Where the first such byte stands, or the length.
pub fn place_of(x: u8, bytes: &[u8]) -> usize
    ensures place { result ≡ place_of x bytes.now }
    ensures within { result ≤ length bytes.now }
{
    for i in 0..bytes.len() {
        if bytes[i] == x {
            return i;
        }
    }
    bytes.len()
}

/// The first line, without its LF and a CR directly before that, and what is left after it.
pub fn split_line(bytes: &[u8]) -> (&[u8], &[u8])
    requires { 0 < length bytes.now }
    ensures lines { lines_of bytes.now ≡ result.0.now ∷ lines_of result.1.now }
    ensures shorter { length result.1.now < length bytes.now }
{
    let end = place_of(b'\n', bytes);
    if end == bytes.len() {
        return (bytes, &[]);
    }
    (without_cr(&bytes[..end]), &bytes[end + 1..])
}

// The line without a CR at its end.
fn without_cr(line: &[u8]) -> &[u8]
    ensures { result.now ≡ without_cr line.now }
{
    match line.split_last() {
        Some((last, front)) => { if *last == b'\r' { front } else { line } }
        None => line,
    }
}
