//! What is to be told, and its status.

ghost use Rattle.std.specs.Prelude.{◌≤◌, ◌++◌};
ghost use Rattle.statuses.specs.Answer.{answer_of};
ghost use Rattle.statuses.specs.Delivery.{Delivers, Writes};

use crate::outcome::Outcome;
use outside::{Sink, write_all};

const DONE: u8 = 0;

const REFUSED: u8 = 1;

const BAD_ARGUMENTS: u8 = 2;

const READ_FAULT: u8 = 3;

const WRITE_FAULT: u8 = 4;

const NO_MEMORY: u8 = 5;

const TOO_LONG: u8 = 6;

/// Writes what is to be told by the program of this name, and gives the status.
pub fn deliver<K: Sink, E: Sink>(name: &[u8], outcome: &Outcome, out: &mut K, err: &mut E) -> u8
    ensures writes { Delivers name.now (answer_of outcome.now) (K.told out.old) (K.told out.new) (E.told err.old) (E.told err.new) result }
    ensures out_later { (K.told out.old).faults ≤ (K.told out.new).faults }
    ensures err_later { (E.told err.old).faults ≤ (E.told err.new).faults }
{
    match outcome {
        Outcome::Shown(text) => write_whole(out, DONE, text),
        Outcome::Refused(line) => write_whole(err, REFUSED, line),
        Outcome::BadArguments => write_line(err, BAD_ARGUMENTS, name, b": bad arguments\n"),
        Outcome::ReadFault => write_line(err, READ_FAULT, name, b": read fault\n"),
        Outcome::TooLong => write_line(err, TOO_LONG, name, b": input too long\n"),
        Outcome::Memory => NO_MEMORY,
    }
}

fn write_whole<K: Sink>(sink: &mut K, status: u8, text: &[u8]) -> u8
    ensures writes { Writes status text.now (K.told sink.old) (K.told sink.new) result }
    ensures later { (K.told sink.old).faults ≤ (K.told sink.new).faults }
{
    match write_all(sink, text) {
        Ok(()) => status,
        Err(_) => WRITE_FAULT,
    }
}

fn write_line<K: Sink>(sink: &mut K, status: u8, name: &[u8], words: &[u8]) -> u8
    ensures writes { Writes status (name.now ++ words.now) (K.told sink.old) (K.told sink.new) result }
    ensures later { (K.told sink.old).faults ≤ (K.told sink.new).faults }
{
    match write_all(sink, name) {
        Ok(()) => write_whole(sink, status, words),
        Err(_) => WRITE_FAULT,
    }
}
