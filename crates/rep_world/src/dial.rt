//! The clock of a recorder in a world.
ghost use Rattle.std.specs.Prelude.{◌≡◌, ◌∷◌, Some};
ghost use Rattle.rep_world.specs.Devices.{times};

use rep_io::{Clock, FIRST_READING, Failed, LAST_READING};

/// A clock that stands at a minute. It counts as looked at once when it is set.
#[derive(Clone, Copy)]
pub struct Dial {
    // since 1970-01-01T00:00 UTC
    minute: u32,
    // how often it was looked at since it was set
    looks: u64,
    faults: u64,
}

impl Dial {
    /// A clock that is set to this minute.
    pub fn at(minute: u32) -> Dial
        ensures { result ≡ record { minute = minute; looks = 0; faults = 0 } }
    {
        Dial {
            minute,
            looks: 0,
            faults: 0,
        }
    }
}

impl Clock for Dial {
    ghost readings = { λ d. Some (d.minute ∷ times d.looks d.minute) };

    ghost faults = { λ d. d.faults };

    /// The minute at which it stands.
    ///
    /// # Errors
    ///
    /// `Failed` for a minute out of a clock's range, and where it was looked at 2^64 - 1 times.
    fn now(&mut self) -> Result<u32, Failed> {
        if FIRST_READING <= self.minute && self.minute <= LAST_READING && self.looks < u64::MAX {
            self.looks += 1;
            return Ok(self.minute);
        }
        self.faults = self.faults.saturating_add(1);
        Err(Failed)
    }
}
