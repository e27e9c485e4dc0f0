// A sink in memory.
ghost use Rattle.std.specs.Prelude.{◌≡◌, ◌-◌, ◌<◌, ◌≤◌, ◌||◌, [], is_err, length, min, vec_capacity, vec_len, Some, IfOk};
ghost use Rattle.std.specs.Io.{WritesAtMost};
ghost use Rattle.std.specs.Io.KnownBytes.{WriteAppends};
ghost use Rattle.outside.specs.Calls.{after_call, is_due};
ghost use Rattle.outside.specs.Causes.{HasCause};
ghost use Rattle.outside.specs.Forms.{MemSinkView, is_full_for};

use crate::calls::Calls;
use crate::{Failed, Fails, Memory, Sink};
use std::alloc::Global;
use std::marker::Model;

/// Takes bytes into memory, up to its room. It tells what it took.
#[derive(Drop)]
pub struct MemSink {
    bytes: Vec<u8>,
    room: u32,
    calls: Calls,
}

impl Model for MemSink {
    ghost Value = { MemSinkView };

    ghost view = { λ s. record { taken = s.bytes.items; room = s.room; calls = s.calls } };

    ghost invariant = { λ s. (vec_len s.bytes ≤ s.room) × (s.room ≤ vec_capacity s.bytes) };
}

impl MemSink {
    /// An empty sink with room for so many bytes, whose calls with the numbers in `fails` fail. All
    /// memory is taken here, and none by a write.
    pub fn new(alloc: Global, room: u32, fails: Fails) -> Result<MemSink, Memory>
        ensures { IfOk result (λ s. s ≡ record { taken = []; room = room; calls = record { fails = fails; made = 0; faults = 0 } }) }
    {
        let bytes = Vec::with_capacity(alloc, room as usize)?;
        Ok(MemSink {
            bytes,
            room,
            calls: Calls::new(fails),
        })
    }

    /// The bytes that it took.
    pub fn taken(&self) -> &[u8]
        ensures { result.now ≡ self.now.taken }
    {
        self.bytes.as_slice()
    }
}

impl Sink for MemSink {
    ghost told = { λ s. record { taken = Some s.taken; faults = s.calls.faults } };

    /// Takes what fits. `Failed` comes exactly where the call's number is listed, or where no room
    /// is left for a piece that isn't empty.
    fn write(&mut self, piece: &[u8]) -> Result<usize, Failed>
        ensures bound { WritesAtMost result piece.now }
        ensures some { IfOk result (λ n. 0 < length piece.now → 0 < n) }
        ensures bytes { WriteAppends (Some self.old.taken) (Some self.new.taken) result piece.now }
        ensures cause { HasCause self.old.calls.faults self.new.calls.faults result }
        ensures fits { IfOk result (λ n. n ≡ min (length piece.now) (self.old.room - length self.old.taken)) }
        ensures failed { is_err result ≡ (is_due self.old.calls || is_full_for self.old piece.now) }
        ensures calls { self.new.calls ≡ after_call self.old.calls (is_err result) }
        ensures room { self.new.room ≡ self.old.room }
    {
        let count = piece.len().min(self.room as usize - self.bytes.len());
        let fault = self.calls.is_due() || count == 0 && !piece.is_empty();
        self.calls.count(fault);
        if fault {
            return Err(Failed);
        }
        match self.bytes.extend_from_slice(&piece[..count]) {
            Ok(()) => Ok(count),
            Err(_) => unreachable!(),
        }
    }
}
