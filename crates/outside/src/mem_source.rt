// A source in memory.
ghost use Rattle.std.specs.Prelude.{◌≡◌, ◌≤◌, ◌<◌, [], drop, is_err, length, min, take, Some, IfOk};
ghost use Rattle.std.specs.Io.{ReadsAtMost};
ghost use Rattle.std.specs.Io.KnownBytes.{ReadConsumes};
ghost use Rattle.outside.specs.Calls.{after_call, is_due};
ghost use Rattle.outside.specs.Causes.{HasCause};
ghost use Rattle.outside.specs.Forms.{MemSourceView};
ghost use Rattle.outside.specs.Told.{no_files};

use crate::calls::Calls;
use crate::{Bytes, Failed, Fails, Source};
use std::marker::Model;

/// Bytes in memory that are to be read. It tells what is left.
#[derive(Drop)]
pub struct MemSource {
    bytes: Bytes,
    at: usize,
    calls: Calls,
}

impl Model for MemSource {
    ghost Value = { MemSourceView };

    ghost view = { λ s. record { left = drop s.at s.bytes; calls = s.calls } };

    ghost invariant = { λ s. s.at ≤ length s.bytes };
}

impl MemSource {
    /// A source of these bytes, whose calls with the numbers in `fails` fail.
    pub fn new(bytes: Bytes, fails: Fails) -> MemSource
        ensures { result ≡ record { left = bytes; calls = record { fails = fails; made = 0; faults = 0 } } }
    {
        MemSource {
            bytes,
            at: 0,
            calls: Calls::new(fails),
        }
    }

    /// The bytes that are left.
    pub fn left(&self) -> &[u8]
        ensures { result.now ≡ self.now.left }
    {
        &self.bytes.as_slice()[self.at..]
    }
}

impl Source for MemSource {
    ghost told = { λ s. record { left = Some s.left; files = no_files; faults = s.calls.faults } };

    /// Moves as many bytes as fit. `Failed` comes exactly where the call's number is listed.
    fn read(&mut self, buf: &mut [u8]) -> Result<usize, Failed>
        ensures bound { ReadsAtMost result buf.new }
        ensures bytes { ReadConsumes (Some self.old.left) (Some self.new.left) result buf.new }
        ensures cause { HasCause self.old.calls.faults self.new.calls.faults result }
        ensures fits { IfOk result (λ n. n ≡ min (length buf.new) (length self.old.left)) }
        ensures failed { is_err result ≡ is_due self.old.calls }
        ensures calls { self.new.calls ≡ after_call self.old.calls (is_err result) }
    {
        let due = self.calls.is_due();
        self.calls.count(due);
        if due {
            return Err(Failed);
        }
        let count = fill(&self.bytes.as_slice()[self.at..], buf);
        self.at += count;
        Ok(count)
    }
}

/// Moves bytes to the front of `buf`, as many as fit, and says how many.
pub fn fill(bytes: &[u8], buf: &mut [u8]) -> usize
    ensures count { result ≡ min (length buf.new) (length bytes.now) }
    ensures within { result ≤ length bytes.now }
    ensures bound { (result ≤ length buf.new) × (result ≡ length (take result buf.new)) }
    ensures moved { take result buf.new ≡ take result bytes.now }
    ensures none { result ≡ 0 → 0 < length buf.new → bytes.now ≡ [] }
{
    let count = buf.len().min(bytes.len());
    buf[..count].copy_from_slice(&bytes[..count]);
    count
}
