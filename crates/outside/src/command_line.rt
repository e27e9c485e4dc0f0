// The words of the command line.

use crate::Words;
use std::env;
use std::io::{self, ErrorKind};

/// The words after the program's name.
pub fn words_of(rt: &HostRuntime) -> io::Result<Words> {
    let mut words = Words::new(rt.alloc());
    for word in env::args(rt)?.skip(1) {
        if words.push(word).is_err() {
            return Err(io::Error::from(ErrorKind::OutOfMemory));
        }
    }
    Ok(words)
}
