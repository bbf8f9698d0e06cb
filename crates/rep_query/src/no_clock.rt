//! A command that records nothing has no clock.
ghost use Rattle.std.specs.Prelude.{None};

use rep_io::{Clock, Failed};

/// In place of a clock, where none is read: it tells no reading, and each call of it fails.
#[derive(Drop)]
pub struct NoClock {
    faults: u64,
}

impl NoClock {
    /// One that hasn't been called.
    pub fn new() -> NoClock {
        NoClock { faults: 0 }
    }
}

impl Clock for NoClock {
    ghost readings = { λ _. None };

    ghost faults = { λ c. c.faults };

    fn now(&mut self) -> Result<u32, Failed> {
        self.faults = self.faults.saturating_add(1);
        Err(Failed)
    }
}
