ghost use Rattle.std.specs.Prelude.{◌≡◌, ◌⊎◌, ◌↔◌, false, IsErr};
ghost use Rattle.rep_io.specs.Calls.{no_calls, IsListed, CountsCall};
ghost use Rattle.rep_io.specs.Causes.{HasCause};

use crate::cause::Failed;
use std::marker::Model;

/// The calls of a form in memory, numbered from 0, of which those listed fail.
#[derive(Drop)]
pub struct Calls {
    next: u64,
    fails: Vec<u64>,
    faults: u64,
}

impl Model for Calls {
    ghost use Rattle.rep_io.specs.Calls.{Calls};

    ghost Value = { Calls };

    ghost view = { λ c. record { next = c.next; fails = c.fails.items; faults = c.faults } };
}

impl Calls {
    /// No call was made yet.
    pub fn new(fails: Vec<u64>) -> Calls
        ensures { result ≡ no_calls fails.items }
    {
        Calls {
            next: 0,
            fails,
            faults: 0,
        }
    }

    /// Counts a call, and its fault where it fails.
    ///
    /// # Errors
    ///
    /// `Failed` exactly where the call's number is listed, or the call isn't possible.
    pub fn begin(&mut self, possible: bool) -> Result<(), Failed>
        ensures fails { IsErr result ↔ (IsListed self.old ⊎ (possible ≡ false)) }
        ensures counted { CountsCall self.old self.new result }
        ensures cause { HasCause self.old.faults self.new.faults result }
    {
        let fails = !possible || self.fails.contains(&self.next);
        self.next = self.next.saturating_add(1);
        if fails {
            self.faults = self.faults.saturating_add(1);
            return Err(Failed);
        }
        Ok(())
    }
}
