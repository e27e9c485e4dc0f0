// The top call.
ghost use Rattle.std.specs.Prelude.{◌≡◌, ◌≤◌, false, map, string_bytes};
ghost use Rattle.pipeline.specs.Request.{asked_by, reads_input, reads_shelf};
ghost use Rattle.pipeline.specs.Table.{Table, told};

use crate::outcome::work_out;
use outside::{Shelf, Sink, Source, Words};
use statuses::deliver;
use std::alloc::Global;

/// Does what the words ask for, and gives the status of the process.
///
/// 0: the text that is wanted was printed to `out`. 1: the input is refused, and `err` has the line. 2: the words are
/// refused, or ask for what isn't built. 3: a read failed, or the file is missing. 4: a write failed. 5: there was no
/// memory. 6: the input is longer than 4,194,304 bytes.
pub fn decompile_words<S: Source, H: Shelf, K: Sink, E: Sink>(
    alloc: Global,
    words: &Words,
    input: &mut S,
    shelf: &mut H,
    out: &mut K,
    err: &mut E,
) -> u8
    ensures table { Table (asked_by (map string_bytes words.now)) (told (S.told input.old) (H.told shelf.old) (K.told out.old) (E.told err.old)) (told (S.told input.new) (H.told shelf.new) (K.told out.new) (E.told err.new)) result }
    ensures input_stays { reads_input (asked_by (map string_bytes words.now)) ≡ false → input.new ≡ input.old }
    ensures shelf_stays { reads_shelf (asked_by (map string_bytes words.now)) ≡ false → shelf.new ≡ shelf.old }
    ensures input_later { (S.told input.old).faults ≤ (S.told input.new).faults }
    ensures shelf_later { (H.told shelf.old).faults ≤ (H.told shelf.new).faults }
    ensures out_later { (K.told out.old).faults ≤ (K.told out.new).faults }
    ensures err_later { (E.told err.old).faults ≤ (E.told err.new).faults }
{
    let outcome = work_out(alloc, words, input, shelf);
    deliver(b"pcode2c", &outcome, out, err)
}
