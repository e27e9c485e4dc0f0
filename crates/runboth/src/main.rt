//! The program: the words of the command line, the file system, the standard streams, and the top call.
#![tactic(auto)]

use outside::{FileShelf, StdSink, words_of};
use side_by_side::runboth_words;
use std::io::ErrorKind;
use std::process::ExitCode;

const BAD_ARGUMENTS: u8 = 2;

const WRITE_FAULT: u8 = 4;

const NO_MEMORY: u8 = 5;

fn main(rt: HostRuntime) -> ExitCode {
    let words = match words_of(&rt) {
        Ok(words) => words,
        Err(error) if error.kind() == ErrorKind::OutOfMemory => return ExitCode::from(NO_MEMORY),
        Err(_) => return refused(&rt),
    };
    let mut shelf = FileShelf::new(&rt);
    let mut out = StdSink::new(rt.stdout());
    let mut err = StdSink::new(rt.stderr());
    let status = runboth_words(rt.alloc(), &words, &mut shelf, &mut out, &mut err);
    ExitCode::from(status)
}

/// Words that aren't text are none that the program takes.
fn refused(rt: &HostRuntime) -> ExitCode {
    match eprintln!(rt; "runboth: bad arguments") {
        Ok(()) => ExitCode::from(BAD_ARGUMENTS),
        Err(_) => ExitCode::from(WRITE_FAULT),
    }
}
