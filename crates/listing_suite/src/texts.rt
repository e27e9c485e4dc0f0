// Texts: what the command makes of them, their canonical texts, and their cuts.
ghost use Rattle.std.specs.Prelude.{◌≤◌, ◌^◌, length, IfOk};

use listing_again::canonical_text;
use outside::{Bytes, FileShelf, Shelf, StdSink, Words, read_all, write_all};
use pcodetext::read_listing;
use pipeline::decompile_words;
use refusals::{Refusal, put_words};
use std::io::{self, ErrorKind};

/// The greatest number of bytes of a file.
const LIMIT: u32 = 0xfffff;

/// The bytes of a file.
pub fn file(rt: &HostRuntime, name: &str) -> io::Result<Bytes>
    ensures { IfOk result (λ bytes. length bytes ≤ 2 ^ 20) }
{
    let mut shelf = FileShelf::new(rt);
    if shelf.select(name).is_err() {
        return Err(io::Error::from(ErrorKind::NotFound));
    }
    match read_all(rt.alloc(), &mut shelf, LIMIT) {
        Ok(bytes) => Ok(bytes),
        Err(_) => Err(io::Error::from(ErrorKind::InvalidData)),
    }
}

/// Writes bytes.
pub fn show(rt: &HostRuntime, bytes: &[u8]) -> io::Result<()> {
    let mut out = StdSink::new(rt.stdout());
    match write_all(&mut out, bytes) {
        Ok(()) => Ok(()),
        Err(_) => Err(io::Error::from(ErrorKind::WriteZero)),
    }
}

/// Writes the words of a refusal.
pub fn show_refusal(rt: &HostRuntime, refusal: &Refusal) -> io::Result<()> {
    let mut words = Vec::new(rt.alloc());
    if put_words(rt.alloc(), &mut words, refusal).is_err() || words.push(b'\n').is_err() {
        return Err(io::Error::from(ErrorKind::OutOfMemory));
    }
    show(rt, words.as_slice())
}

/// What the command writes, and its status.
pub fn command(rt: &HostRuntime, name: &str) -> io::Result<()> {
    let words = Words::new(rt.alloc());
    let mut input = FileShelf::new(rt);
    let mut shelf = FileShelf::new(rt);
    let mut out = StdSink::new(rt.stdout());
    let mut err = StdSink::new(rt.stdout());
    if input.select(name).is_err() {
        return println!(rt; "no such file");
    }
    let status = decompile_words(
        rt.alloc(),
        &words,
        &mut input,
        &mut shelf,
        &mut out,
        &mut err,
    );
    println!(rt; "status {status}")
}

/// Whether the canonical text of a file is another file.
pub fn canonical(rt: &HostRuntime, name: &str, other: &str) -> io::Result<()> {
    let text = file(rt, name)?;
    match canonical_text(rt.alloc(), text.as_slice()) {
        Ok(found) => is_file(rt, found.as_slice(), other),
        Err(fault) => show_refusal(rt, &Refusal::from(fault)),
    }
}

fn is_file(rt: &HostRuntime, text: &[u8], name: &str) -> io::Result<()> {
    let wanted = file(rt, name)?;
    let answer = if text == wanted.as_slice() {
        "yes"
    } else {
        "no"
    };
    println!(rt; "{answer}")
}

/// The fault of a text up to each line feed but the last one.
pub fn cuts(rt: &HostRuntime, name: &str) -> io::Result<()> {
    let whole = file(rt, name)?;
    let text = whole.as_slice();
    for i in 1..text.len() {
        if text[i - 1] == b'\n' {
            cut(rt, &text[..i])?;
        }
    }
    Ok(())
}

fn cut(rt: &HostRuntime, text: &[u8]) -> io::Result<()>
    requires { length text.now ≤ 2 ^ 20 }
{
    match read_listing(rt.alloc(), text) {
        Ok(_) => println!(rt; "a listing"),
        Err(fault) => show_refusal(rt, &Refusal::from(fault)),
    }
}
