//! A file that is read whole.

ghost use Rattle.std.specs.Prelude.{◌≡◌, ◌≤◌, length, IfOk};
ghost use Rattle.statuses.specs.Fetched.{Fetched};

use outside::{Bytes, ReadEnd, Shelf, read_all};
use std::alloc::Global;

/// The bytes of a file of the shelf, if these are at most `limit`. A file that can't be selected is a fault of reading.
pub fn read_file<H: Shelf>(
    alloc: Global,
    shelf: &mut H,
    name: &str,
    limit: u32,
) -> Result<Bytes, ReadEnd>
    ensures fetched { Fetched limit name.now (H.told shelf.old) (H.told shelf.new) result }
    ensures short { IfOk result (λ bytes. length bytes ≤ limit) }
    ensures files { (H.told shelf.new).files ≡ (H.told shelf.old).files }
    ensures later { (H.told shelf.old).faults ≤ (H.told shelf.new).faults }
{
    match shelf.select(name) {
        Ok(()) => read_all(alloc, shelf, limit),
        Err(_) => Err(ReadEnd::Fault),
    }
}
