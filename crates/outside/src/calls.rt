// The calls of an object in memory: which of them are to fail, and how many have failed.
ghost use Rattle.std.specs.Prelude.{◌≡◌, ◌-◌, ◌^◌, ◌≤◌};
ghost use Rattle.outside.specs.Calls.{CallsView, after_call, is_due};

use crate::{Failed, Fails};
use std::marker::Model;

#[derive(Drop)]
pub struct Calls {
    fails: Fails,
    made: u64,
    faults: u64,
}

impl Model for Calls {
    ghost Value = { CallsView };

    ghost view = { λ c. record { fails = c.fails; made = c.made; faults = c.faults } };

    ghost invariant = { λ c. c.faults ≤ 2 ^ 64 - 1 };
}

impl Calls {
    /// No call was made yet.
    pub fn new(fails: Fails) -> Self
        ensures { result ≡ record { fails = fails; made = 0; faults = 0 } }
    {
        Calls {
            fails,
            made: 0,
            faults: 0,
        }
    }

    /// Whether the next call is to fail.
    pub fn is_due(&self) -> bool
        ensures { result ≡ is_due self.now }
    {
        match u32::try_from(self.made) {
            Ok(call) => self.fails.as_slice().contains(&call),
            Err(_) => false,
        }
    }

    /// Counts one more call, and a fault where it had one.
    pub fn count(&mut self, fault: bool)
        ensures counted { self.new ≡ after_call self.old fault }
        ensures later { self.old.faults ≤ self.new.faults }
        ensures most { self.new.faults ≤ 2 ^ 64 - 1 }
    {
        self.made = self.made.saturating_add(1);
        if fault {
            self.faults = self.faults.saturating_add(1);
        }
    }
}
