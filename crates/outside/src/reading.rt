// A source read to its end.
ghost use Rattle.std.specs.Prelude.{◌≡◌, ◌<◌, ◌≤◌, ◌-◌, length, IfOk, IsErrOf};
ghost use Rattle.std.specs.Io.KnownBytes.{Keeps};
ghost use Rattle.outside.specs.Causes.{Rose};
ghost use Rattle.outside.specs.Reading.{Gave, Grew, TookAtMost};
ghost use Rattle.outside.specs.declared.reading.ReadEnd.TheVariants.{Fault, Memory};

use crate::{Bytes, Failed, Source};
use std::alloc::Global;

/// Why a source wasn't read to its end.
#[derive(Clone, Copy, Debug, PartialEq, Eq)]
pub enum ReadEnd {
    /// A read failed.
    Fault,
    /// There were more bytes than the limit.
    TooLong,
    /// There was no memory for the bytes that came.
    Memory,
}

impl From<Failed> for ReadEnd {
    ghost from_gives = { λ _ end. end ≡ Fault };

    fn from(_: Failed) -> Self {
        ReadEnd::Fault
    }
}

impl From<crate::Memory> for ReadEnd {
    ghost from_gives = { λ _ end. end ≡ Memory };

    fn from(_: crate::Memory) -> Self {
        ReadEnd::Memory
    }
}

// How many bytes are asked for at a time.
const CHUNK: usize = 4096;

/// Reads a source to its end, if that comes within `limit` bytes. `TooLong` comes exactly where
/// `limit + 1` bytes came, and no more are ever taken. `Fault` comes only where a fault was counted
/// in this call, and `Memory` where there was none for the bytes that came.
pub fn read_all<S: Source>(alloc: Global, src: &mut S, limit: u32) -> Result<Bytes, ReadEnd>
    ensures gave { Gave limit (S.told src.old) (S.told src.new) result }
    ensures later { (S.told src.old).faults ≤ (S.told src.new).faults }
    ensures files { (S.told src.new).files ≡ (S.told src.old).files }
{
    let mut bytes = Bytes::new(alloc);
    let most = limit as usize + 1;
    while bytes.as_slice().len() < most {
        match read_more(src, &mut bytes, most) {
            Ok(true) => {}
            Ok(false) => return Ok(bytes),
            Err(end) => return Err(end),
        }
    }
    Err(ReadEnd::TooLong)
}

// Reads once, up to a number of bytes in all. False at the end.
fn read_more<S: Source>(src: &mut S, bytes: &mut Bytes, most: usize) -> Result<bool, ReadEnd>
    requires { length bytes.old < most }
    ensures more { IfOk result (Grew (S.told src.old).left (S.told src.new).left most bytes.old bytes.new) }
    ensures fault { IsErrOf result ReadEnd.Fault → Keeps (S.told src.old).left (S.told src.new).left × Rose (S.told src.old).faults (S.told src.new).faults }
    ensures most { TookAtMost (S.told src.old).left (S.told src.new).left (most - length bytes.old) }
    ensures not_long { IsErrOf result ReadEnd.TooLong → ⊥ }
    ensures later { (S.told src.old).faults ≤ (S.told src.new).faults }
    ensures kept { (IsErrOf result ReadEnd.Fault → ⊥) → (S.told src.new).faults ≡ (S.told src.old).faults }
    ensures files { (S.told src.new).files ≡ (S.told src.old).files }
{
    let mut buffer = [0; CHUNK];
    let room = CHUNK.min(most - bytes.as_slice().len());
    let count = src.read(&mut buffer[..room])?;
    bytes.append(&buffer[..count])?;
    Ok(count > 0)
}
