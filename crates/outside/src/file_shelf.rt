//! A shelf over the file system.

ghost use Rattle.std.specs.Prelude.{◌≡◌, ◌⊎◌, ◌≤◌, ◌-◌, ◌^◌, None, OnErr, OnOk};
ghost use Rattle.std.specs.Io.{ReadsAtMost};
ghost use Rattle.std.specs.Io.KnownBytes.{Keeps, ReadConsumes};
ghost use Rattle.outside.specs.Causes.{HasCause, Rose, count_after};
ghost use Rattle.outside.specs.Files.{IsFile, IsMissing};
ghost use Rattle.outside.specs.Told.{no_files};

use crate::traits::{Failed, Shelf, Source};
use std::fs::{self, Files};
use std::io::Read;
use std::marker::Model;

/// The files that can be opened, by their paths. It tells nothing of what they hold. `Failed` comes exactly where a file
/// can't be opened or its own read fails.
#[derive(Drop)]
pub struct FileShelf<'a, R: Files> {
    files: &'a R,
    chosen: Option<R::File>,
    faults: u64,
}

impl<'a, R: Files> Model for FileShelf<'a, R> {
    ghost use Rattle.std.specs.Prelude.{ℕ, ◌≤◌, ◌-◌, ◌^◌};

    ghost Value = { ℕ };

    ghost view = { λ s. s.faults };

    ghost invariant = { λ s. s.faults ≤ 2 ^ 64 - 1 };
}

impl<'a, R: Files> FileShelf<'a, R> {
    /// A shelf with no fault so far. No byte is left before a file is selected.
    pub fn new(files: &'a R) -> FileShelf<'a, R>
        ensures { result ≡ 0 }
    {
        FileShelf {
            files,
            chosen: None,
            faults: 0,
        }
    }
}

impl<'a, R: Files> Source for FileShelf<'a, R> {
    ghost told = { λ s. record { left = None; files = no_files; faults = s } };

    fn read(&mut self, buf: &mut [u8]) -> Result<usize, Failed>
        ensures bound { ReadsAtMost result buf.new }
        ensures bytes { ReadConsumes None None result buf.new }
        ensures cause { HasCause self.old self.new result }
        ensures counted { self.new ≡ count_after self.old result }
    {
        let Some(file) = &mut self.chosen else {
            return Ok(0);
        };
        match file.read(buf) {
            Ok(count) => Ok(count),
            Err(_) => {
                self.faults = self.faults.saturating_add(1);
                Err(Failed)
            }
        }
    }
}

impl<'a, R: Files> Shelf for FileShelf<'a, R> {
    fn select(&mut self, name: &str) -> Result<(), Failed>
        ensures chosen { OnOk result (IsFile name.now no_files None) }
        ensures stays { OnErr result (Keeps None None) }
        ensures later { self.old ≤ self.new }
        ensures most { self.new ≤ 2 ^ 64 - 1 }
        ensures kept { OnOk result (self.new ≡ self.old) }
        ensures failed { OnErr result (Rose self.old self.new ⊎ IsMissing name.now no_files) }
        ensures missing { IsMissing name.now no_files → self.new ≡ self.old }
        ensures counted { self.new ≡ count_after self.old result }
    {
        match fs::open(self.files, name) {
            Ok(file) => {
                self.chosen = Some(file);
                Ok(())
            }
            Err(_) => {
                self.faults = self.faults.saturating_add(1);
                Err(Failed)
            }
        }
    }
}
