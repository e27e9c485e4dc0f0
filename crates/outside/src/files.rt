// Files in memory.
ghost use Rattle.std.specs.Prelude.{◌≡◌, ◌<◌, length, Some, None, MatchOption};
ghost use Rattle.outside.specs.Files.{bytes_at, file_of, folder_of};

use crate::{Bytes, Sequence};

/// A file: its name and its bytes.
#[derive(Debug, Drop)]
pub struct File {
    pub name: String,
    pub bytes: Bytes,
}

/// A list of files. Where a name stands more than once, the first item with that name counts.
pub type Files = Sequence<File>;

/// The place of the first file with the name.
pub fn place_in(files: &[File], name: &str) -> Option<usize>
    ensures { MatchOption result (file_of name.now (folder_of files.now) ≡ None)
        (λ i. (i < length files.now) × (file_of name.now (folder_of files.now) ≡ Some (bytes_at files.now i))) }
{
    for i in 0..files.len() {
        if files[i].name.as_str() == name {
            return Some(i);
        }
    }
    None
}

/// The bytes of the file at this place, or none past the last.
pub fn bytes_in(files: &[File], place: usize) -> &[u8]
    ensures { result.now ≡ bytes_at files.now place }
{
    match files.get(place) {
        Some(file) => file.bytes.as_slice(),
        None => &[],
    }
}
