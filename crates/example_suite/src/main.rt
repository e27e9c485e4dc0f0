//! Runs the examples of the folder that it is started in: each listing `NAME.pcode`, in the order of the names, is
//! decompiled, and what came is compared with the text beside it, `NAME.c` or, for a refusal, `NAME.err`. Where an entry
//! `NAME.entry` stands there too, both machines run on it. A line says what came of each example, and a run's own lines
//! follow it.
#![tactic(auto)]

mod came;

use came::{Came, decompiled};
use outside::{Bytes, FileShelf, Memory, StdSink, Words};
use side_by_side::runboth_words;
use std::fs;
use std::io::{self, ErrorKind};
use std::process::ExitCode;

/// The steps of each run.
const STEPS: &str = "1000";

fn main(rt: HostRuntime) -> ExitCode {
    match each(&rt) {
        Ok(()) => ExitCode::from(0),
        Err(_) => ExitCode::from(1),
    }
}

/// Runs each example.
fn each(rt: &HostRuntime) -> io::Result<()> {
    let names = names(rt)?;
    for name in names.iter() {
        one(rt, name.as_str())?;
    }
    Ok(())
}

/// The names of the examples, in their order.
fn names(rt: &HostRuntime) -> io::Result<Vec<String>> {
    let mut names = Vec::new(rt.alloc());
    for entry in fs::read_dir(rt, ".")? {
        let entry = entry?;
        if let Some(name) = entry.file_name().strip_suffix(".pcode") {
            names.push(String::from_str(rt.alloc(), name)?)?;
        }
    }
    names.sort()?;
    Ok(names)
}

/// Runs the example of this name.
fn one(rt: &HostRuntime, name: &str) -> io::Result<()> {
    let listing = file(rt, name, "pcode")?;
    let came = decompiled(rt.alloc(), listing).map_err(want)?;
    println!(rt; "{name}: {}", word(rt, name, &came)?)?;
    if fs::exists(rt, path(rt, name, "entry")?.as_str())? {
        run_both(rt, name)?;
    }
    Ok(())
}

/// What came of an example, in a word.
fn word(rt: &HostRuntime, name: &str, came: &Came) -> io::Result<&'static str> {
    let (kind, is_that, text) = match came.status {
        0 => ("c", "printed", came.out.taken()),
        _ => ("err", "refused", came.err.taken()),
    };
    let wanted = file(rt, name, kind)?;
    Ok(if wanted.as_slice() == text {
        is_that
    } else {
        "differs"
    })
}

/// Runs the listing and its C on the example's entry, and prints what each has shown.
fn run_both(rt: &HostRuntime, name: &str) -> io::Result<()> {
    let mut words = Words::new(rt.alloc());
    for kind in ["pcode", "c", "entry"] {
        words.push(path(rt, name, kind)?).map_err(want)?;
    }
    words
        .push(String::from_str(rt.alloc(), STEPS)?)
        .map_err(want)?;
    let mut shelf = FileShelf::new(rt);
    let mut out = StdSink::new(rt.stdout());
    let mut err = StdSink::new(rt.stderr());
    match runboth_words(rt.alloc(), &words, &mut shelf, &mut out, &mut err) {
        0 => Ok(()),
        _ => Err(io::Error::from(ErrorKind::Other)),
    }
}

/// The name of an example's file of this kind.
fn path(rt: &HostRuntime, name: &str, kind: &str) -> io::Result<String> {
    Ok(format!(in rt.alloc(); "{name}.{kind}")?)
}

/// The bytes of an example's file of this kind.
fn file(rt: &HostRuntime, name: &str, kind: &str) -> io::Result<Bytes> {
    let bytes = fs::read(rt, path(rt, name, kind)?.as_str())?;
    Bytes::copy_of(rt.alloc(), bytes.as_slice()).map_err(want)
}

/// Want of memory, as an error of reading and writing.
fn want(_: Memory) -> io::Error {
    io::Error::from(ErrorKind::OutOfMemory)
}
