// A shelf in memory.
ghost use Rattle.std.specs.Prelude.{◌≡◌, ◌-◌, ◌≤◌, ◌^◌, ◌&&◌, ◌||◌, [], drop, is_err, is_none, is_some, length, min, Some, IfOk, OnErr, OnOk};
ghost use Rattle.std.specs.Io.{ReadsAtMost};
ghost use Rattle.std.specs.Io.KnownBytes.{ReadConsumes};
ghost use Rattle.outside.specs.Calls.{after_call, is_due};
ghost use Rattle.outside.specs.Causes.{HasCause};
ghost use Rattle.outside.specs.Files.{bytes_at, file_of, folder_of};
ghost use Rattle.outside.specs.Forms.{MemShelfView};

use crate::calls::Calls;
use crate::files::{bytes_in, place_in};
use crate::mem_source::fill;
use crate::{Failed, Fails, Files, Shelf, Source};
use std::marker::Model;

/// Files in memory that are to be read. It tells its files and what is left of the one that was
/// selected.
#[derive(Drop)]
pub struct MemShelf {
    files: Files,
    chosen: usize,
    at: usize,
    calls: Calls,
}

impl Model for MemShelf {
    ghost Value = { MemShelfView };

    ghost view = { λ s. record { left = drop s.at (bytes_at s.files s.chosen); files = folder_of s.files; calls = s.calls } };

    ghost invariant = { λ s. s.at ≤ length (bytes_at s.files s.chosen) };
}

impl MemShelf {
    /// A shelf of these files, whose calls with the numbers in `fails` fail. Reads and selects are
    /// numbered together. No byte is left before a file is selected.
    pub fn new(files: Files, fails: Fails) -> MemShelf
        ensures { result ≡ record { left = []; files = folder_of files; calls = record { fails = fails; made = 0; faults = 0 } } }
    {
        let chosen = files.as_slice().len();
        MemShelf {
            files,
            chosen,
            at: 0,
            calls: Calls::new(fails),
        }
    }

    /// The bytes that are left of the file that was selected.
    pub fn left(&self) -> &[u8]
        ensures { result.now ≡ self.now.left }
    {
        &bytes_in(self.files.as_slice(), self.chosen)[self.at..]
    }
}

impl Source for MemShelf {
    ghost told = { λ s. record { left = Some s.left; files = Some s.files; faults = s.calls.faults } };

    /// Moves as many bytes as fit. `Failed` comes exactly where the call's number is listed.
    fn read(&mut self, buf: &mut [u8]) -> Result<usize, Failed>
        ensures bound { ReadsAtMost result buf.new }
        ensures bytes { ReadConsumes (Some self.old.left) (Some self.new.left) result buf.new }
        ensures files { Some self.new.files ≡ Some self.old.files }
        ensures cause { HasCause self.old.calls.faults self.new.calls.faults result }
        ensures fits { IfOk result (λ n. n ≡ min (length buf.new) (length self.old.left)) }
        ensures failed { is_err result ≡ is_due self.old.calls }
        ensures calls { self.new.calls ≡ after_call self.old.calls (is_err result) }
    {
        let due = self.calls.is_due();
        self.calls.count(due);
        if due {
            return Err(Failed);
        }
        let bytes = bytes_in(self.files.as_slice(), self.chosen);
        let count = fill(&bytes[self.at..], buf);
        self.at += count;
        Ok(count)
    }
}

impl Shelf for MemShelf {
    /// `Failed` comes exactly where the call's number is listed or there is no such name.
    fn select(&mut self, name: &str) -> Result<(), Failed>
        ensures chosen { OnOk result (file_of name.now self.old.files ≡ Some self.new.left) }
        ensures stays { OnErr result (self.new.left ≡ self.old.left) }
        ensures files { self.new.files ≡ self.old.files }
        ensures failed { is_err result ≡ (is_due self.old.calls || is_none (file_of name.now self.old.files)) }
        ensures calls { self.new.calls ≡ after_call self.old.calls (is_err result && is_some (file_of name.now self.old.files)) }
        ensures later { self.old.calls.faults ≤ self.new.calls.faults }
        ensures most { self.new.calls.faults ≤ 2 ^ 64 - 1 }
    {
        let found = place_in(self.files.as_slice(), name);
        let fault = self.calls.is_due() && found.is_some();
        self.calls.count(fault);
        match found {
            Some(place) if !fault => {
                self.chosen = place;
                self.at = 0;
                Ok(())
            }
            _ => Err(Failed),
        }
    }
}
