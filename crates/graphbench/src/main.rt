//! A benchmark of the operation graph against a plain array of ops with indices: `graphbench graph N`
//! and `graphbench array N` each add N ops, retarget each of them and remove each. Compare their times.
//! `graphbench multi N` reads a MULTIEQUAL of 2,000 inputs N times.
#![tactic(auto)]

mod array;
mod edits;

use std::env;
use std::io::ErrorKind;
use std::process::ExitCode;

/// Which of them is timed.
#[derive(Clone, Copy)]
enum Which {
    Graph,
    Array,
    Multi,
}

/// The two words of the command line.
#[derive(Clone, Copy)]
struct Words {
    which: Which,
    count: u32,
}

const BAD_WORDS: u8 = 2;

const NO_MEMORY: u8 = 5;

fn words_of(rt: &HostRuntime) -> Result<Words, u8> {
    let mut words = match env::args(rt) {
        Ok(words) => words.skip(1),
        Err(error) if error.kind() == ErrorKind::OutOfMemory => return Err(NO_MEMORY),
        Err(_) => return Err(BAD_WORDS),
    };
    let (Some(which), Some(count)) = (words.next(), words.next()) else {
        return Err(BAD_WORDS);
    };
    let which = match which.as_str() {
        "graph" => Which::Graph,
        "array" => Which::Array,
        "multi" => Which::Multi,
        _ => return Err(BAD_WORDS),
    };
    match count.as_str().parse::<u32>() {
        Ok(count) => Ok(Words { which, count }),
        Err(_) => Err(BAD_WORDS),
    }
}

fn main(rt: HostRuntime) -> ExitCode {
    let words = match words_of(&rt) {
        Ok(words) => words,
        Err(status) => return ExitCode::from(status),
    };
    let done = match words.which {
        Which::Graph => edits::of_graph(rt.alloc(), words.count),
        Which::Array => array::of_array(rt.alloc(), words.count),
        Which::Multi => edits::of_multi(rt.alloc(), words.count),
    };
    match done {
        Ok(count) if println!(rt; "{count} done").is_ok() => ExitCode::from(0),
        _ => ExitCode::from(NO_MEMORY),
    }
}
