ghost use Rattle.std.specs.Prelude.{◌≡◌, ℕ, ◌+◌, ◌*◌, ◌<◌, ◌≤◌, None, Some, IfSome};
ghost use Rattle.rep_io.specs.Streams.{IsReading};

use rep_io::{FIRST_READING, Failed, LAST_READING};
use std::time::SystemTime;

/// The system's clock. It tells nothing of its readings.
#[derive(Drop)]
pub struct SystemClock<'a, R: std::rt::Clock> {
    rt: &'a R,
    faults: u64,
}

impl<'a, R: std::rt::Clock> SystemClock<'a, R> {
    /// The clock of the runtime.
    pub fn new(rt: &'a R) -> Self {
        SystemClock { rt, faults: 0 }
    }
}

/// The seconds of a minute.
const MINUTE: u64 = 60;

/// The whole minutes in so many seconds, where they are in the range of a clock's readings.
pub(crate) fn minutes_of(seconds: u64) -> Option<u32>
    ensures in_range { IfSome result IsReading }
    ensures value { IfSome result (λ minute. (minute * 60 ≤ seconds) × (seconds < minute * 60 + 60)) }
    ensures only { (minute : ℕ) → IsReading minute → minute * 60 ≤ seconds → seconds < minute * 60 + 60
        → result ≡ Some minute }
{
    let minute = u32::try_from(seconds / MINUTE).ok()?;
    if minute < FIRST_READING || minute > LAST_READING {
        return None;
    }
    Some(minute)
}

/// The whole minutes since 1970, where they are in the range of a clock's readings.
fn minutes_since_1970(rt: &impl std::rt::Clock) -> Option<u32>
    ensures { IfSome result IsReading }
{
    let now = SystemTime::now(rt).ok()?;
    let since = now.duration_since(SystemTime::UNIX_EPOCH).ok()?;
    minutes_of(since.as_secs())
}

impl<'a, R: std::rt::Clock> rep_io::Clock for SystemClock<'a, R> {
    ghost readings = { λ _. None };

    ghost faults = { λ s. s.faults };

    fn now(&mut self) -> Result<u32, Failed> {
        match minutes_since_1970(self.rt) {
            Some(minute) => Ok(minute),
            None => {
                self.faults = self.faults.saturating_add(1);
                Err(Failed)
            }
        }
    }
}
