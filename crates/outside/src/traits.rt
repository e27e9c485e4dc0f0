// The outside, as a program sees it.
ghost use Rattle.std.specs.Prelude.{◌≡◌, ◌⊎◌, ◌<◌, ◌≤◌, ◌^◌, ◌-◌, length, IfOk, OnErr, OnOk};
ghost use Rattle.std.specs.Io.{ReadsAtMost, WritesAtMost};
ghost use Rattle.std.specs.Io.KnownBytes.{Keeps, ReadConsumes, WriteAppends};
ghost use Rattle.outside.specs.Causes.{HasCause, Rose};
ghost use Rattle.outside.specs.Files.{IsFile, IsMissing};
ghost use Rattle.outside.specs.Told.{Held, Told};

/// A call of the outside failed. It moved, took or selected nothing.
#[derive(Clone, Copy, Debug, PartialEq, Eq)]
pub struct Failed;

/// Where bytes come from.
pub trait Source {
    /// The bytes that are left and the files, where they are told, and the count of faults.
    ghost told: { Self → Told };

    /// Moves the first bytes that are left to the front of `buf`, and says how many bytes. It is
    /// 0 only where no byte is left, or where `buf` is empty. `Failed` comes only where a fault
    /// was counted in this call.
    fn read(&mut self, buf: &mut [u8]) -> Result<usize, Failed>
        ensures bound { ReadsAtMost result buf.new }
        ensures bytes { ReadConsumes (told self.old).left (told self.new).left result buf.new }
        ensures files { (told self.new).files ≡ (told self.old).files }
        ensures cause { HasCause (told self.old).faults (told self.new).faults result };
}

/// Where bytes go to.
pub trait Sink {
    /// The bytes that were taken, where they are told, and the count of faults.
    ghost told: { Self → Held };

    /// Takes the first bytes of `piece`, and says how many bytes: at least one where there is
    /// one. `Failed` comes only where a fault was counted in this call.
    fn write(&mut self, piece: &[u8]) -> Result<usize, Failed>
        ensures bound { WritesAtMost result piece.now }
        ensures some { IfOk result (λ n. 0 < length piece.now → 0 < n) }
        ensures bytes { WriteAppends (told self.old).taken (told self.new).taken result piece.now }
        ensures cause { HasCause (told self.old).faults (told self.new).faults result };
}

/// A source of several files, of which one is read at a time.
pub trait Shelf: Source {
    /// Makes the bytes left those of the named file. `Failed` comes only where a fault was counted
    /// in this call, or where the files are told and the name isn't among them. For such a name no
    /// fault is counted.
    fn select(&mut self, name: &str) -> Result<(), Failed>
        ensures chosen { OnOk result (IsFile name.now (Self.told self.old).files (Self.told self.new).left) }
        ensures stays { OnErr result (Keeps (Self.told self.old).left (Self.told self.new).left) }
        ensures files { (Self.told self.new).files ≡ (Self.told self.old).files }
        ensures later { (Self.told self.old).faults ≤ (Self.told self.new).faults }
        ensures most { (Self.told self.new).faults ≤ 2 ^ 64 - 1 }
        ensures kept { OnOk result ((Self.told self.new).faults ≡ (Self.told self.old).faults) }
        ensures failed { OnErr result (Rose (Self.told self.old).faults (Self.told self.new).faults ⊎ IsMissing name.now (Self.told self.old).files) }
        ensures missing { IsMissing name.now (Self.told self.old).files → (Self.told self.new).faults ≡ (Self.told self.old).faults };
}
