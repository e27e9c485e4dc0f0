//! Runs, row by row. Each line of standard input has the words of a `runboth` command, split by one space each, and
//! below it stand what the command writes, and its status. The file `stdout` has what is wanted. A line that begins with
//! # is a heading.
#![tactic(auto)]

use outside::{FileShelf, StdSink, Words};
use side_by_side::runboth_words;
use std::alloc::{AllocError, Global};
use std::io;

fn main(rt: HostRuntime) -> io::Result<()> {
    for line in rt.lines(rt.alloc()) {
        row(&rt, line?.as_str())?;
    }
    Ok(())
}

fn row(rt: &HostRuntime, line: &str) -> io::Result<()> {
    if line.starts_with("#") {
        return println!(rt; "{line}");
    }
    println!(rt; "> {line}")?;
    let words = words_of(rt.alloc(), line)?;
    let mut shelf = FileShelf::new(rt);
    let mut out = StdSink::new(rt.stdout());
    let mut err = StdSink::new(rt.stdout());
    let status = runboth_words(rt.alloc(), &words, &mut shelf, &mut out, &mut err);
    println!(rt; "status {status}")
}

fn words_of(alloc: Global, line: &str) -> Result<Words, AllocError> {
    let mut words = Words::new(alloc);
    for word in line.split(' ') {
        if words.push(String::from_str(alloc, word)?).is_err() {
            return Err(AllocError);
        }
    }
    Ok(words)
}
