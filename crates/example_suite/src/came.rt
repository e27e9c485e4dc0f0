//! What comes of one listing.

use outside::{Bytes, Fails, Files, MemShelf, MemSink, MemSource, Memory, Words};
use pipeline::decompile_words;
use std::alloc::Global;

/// As many bytes as an example's text may have.
const ROOM: u32 = 65536;

/// What the call wrote, and its status.
#[derive(Drop)]
pub struct Came {
    pub status: u8,
    pub out: MemSink,
    pub err: MemSink,
}

/// Decompiles a listing.
pub fn decompiled(alloc: Global, listing: Bytes) -> Result<Came, Memory> {
    let mut out = MemSink::new(alloc, ROOM, Fails::new(alloc))?;
    let mut err = MemSink::new(alloc, ROOM, Fails::new(alloc))?;
    let status = called(alloc, listing, &mut out, &mut err);
    Ok(Came { status, out, err })
}

/// The top call, without words.
fn called(alloc: Global, listing: Bytes, out: &mut MemSink, err: &mut MemSink) -> u8 {
    let mut input = MemSource::new(listing, Fails::new(alloc));
    let mut shelf = MemShelf::new(Files::new(alloc), Fails::new(alloc));
    decompile_words(alloc, &Words::new(alloc), &mut input, &mut shelf, out, err)
}
