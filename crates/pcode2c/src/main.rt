//! The program: the words of the command line, the standard streams, the file system, and the top call.
#![tactic(auto)]

use outside::{FileShelf, StdSink, StdSource, words_of};
use pipeline::decompile_words;
use std::io::ErrorKind;
use std::process::ExitCode;

const BAD_ARGUMENTS: u8 = 2;

const WRITE_FAULT: u8 = 4;

const NO_MEMORY: u8 = 5;

fn main(rt: HostRuntime) -> ExitCode {
    let words = match words_of(&rt) {
        Ok(words) => words,
        Err(error) if error.kind() == ErrorKind::OutOfMemory => return ExitCode::from(NO_MEMORY),
        Err(_) => return refused(&rt),
    };
    let mut input = StdSource::new(rt.stdin());
    let mut shelf = FileShelf::new(&rt);
    let mut out = StdSink::new(rt.stdout());
    let mut err = StdSink::new(rt.stderr());
    let status = decompile_words(
        rt.alloc(),
        &words,
        &mut input,
        &mut shelf,
        &mut out,
        &mut err,
    );
    ExitCode::from(status)
}

/// Words that aren't text are none that the program takes.
fn refused(rt: &HostRuntime) -> ExitCode {
    match eprintln!(rt; "pcode2c: bad arguments") {
        Ok(()) => ExitCode::from(BAD_ARGUMENTS),
        Err(_) => ExitCode::from(WRITE_FAULT),
    }
}
