//! The top call.

ghost use Rattle.std.specs.Prelude.{◌≡◌, ◌≤◌, map, string_bytes, None};
ghost use Rattle.runwords.specs.Request.{asked_by};
ghost use Rattle.runwords.specs.Fetched.{AllFetched};
ghost use Rattle.runwords.specs.Table.{Because, Table};
ghost use Rattle.side_by_side.specs.Judged.{Faults, Shows};
ghost use Rattle.statuses.specs.Answer.{answer_of};

use crate::judging::judge;
use outside::{Shelf, Sink, Words};
use runwords::gather;
use statuses::{Outcome, deliver};
use std::alloc::Global;

// What the words and the files come to.
fn work_out<H: Shelf>(alloc: Global, words: &Words, shelf: &mut H) -> Outcome
    ensures because { Because Shows Faults (asked_by (map string_bytes words.now)) (λ a came. AllFetched a (H.told shelf.old) (H.told shelf.new) came) (answer_of result) }
    ensures stays { asked_by (map string_bytes words.now) ≡ None → shelf.new ≡ shelf.old }
    ensures later { (H.told shelf.old).faults ≤ (H.told shelf.new).faults }
    ensures files { (H.told shelf.new).files ≡ (H.told shelf.old).files }
{
    match gather(alloc, words, shelf) {
        Ok(gathered) => judge(alloc, &gathered.inputs, gathered.steps),
        Err(outcome) => outcome,
    }
}

/// Runs a listing and a C text on an entry, as the words `LISTING CTEXT ENTRY STEPS` ask, and gives the status of the
/// process.
///
/// 0: the traces of both machines were written to `out`. 1: an input is refused, and `err` has the line. 2: the words are
/// refused. 3: a read failed, or a file is missing. 4: a write failed. 5: there was no memory. 6: a file is longer than
/// 4,194,304 bytes.
pub fn runboth_words<H: Shelf, K: Sink, E: Sink>(
    alloc: Global,
    words: &Words,
    shelf: &mut H,
    out: &mut K,
    err: &mut E,
) -> u8
    ensures table { Table Shows Faults (asked_by (map string_bytes words.now)) (H.told shelf.old) (H.told shelf.new) (K.told out.old) (K.told out.new) (E.told err.old) (E.told err.new) result }
    ensures shelf_stays { asked_by (map string_bytes words.now) ≡ None → shelf.new ≡ shelf.old }
    ensures shelf_files { (H.told shelf.new).files ≡ (H.told shelf.old).files }
    ensures shelf_later { (H.told shelf.old).faults ≤ (H.told shelf.new).faults }
    ensures out_later { (K.told out.old).faults ≤ (K.told out.new).faults }
    ensures err_later { (E.told err.old).faults ≤ (E.told err.new).faults }
{
    let outcome = work_out(alloc, words, shelf);
    deliver(b"runboth", &outcome, out, err)
}
