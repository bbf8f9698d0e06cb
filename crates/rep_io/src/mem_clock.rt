ghost use Rattle.std.specs.Prelude.{◌≡◌, ◌⊎◌, ◌↔◌, ℕ, ◌<◌, [], Some, All, IfOk, IsErr, vec_len};
ghost use Rattle.rep_io.specs.Calls.{no_calls, IsListed, CountsCall};
ghost use Rattle.rep_io.specs.Causes.{HasCause, last_count};
ghost use Rattle.rep_io.specs.MemClock.{Hands, reading_at, readings_of};
ghost use Rattle.rep_io.specs.Streams.{IsReading, Ticks};

use crate::calls::Calls;
use crate::cause::Failed;
use crate::clock::Clock;
use std::marker::Model;

/// A clock in memory. It gives the readings of a list in order, and then repeats the last.
///
/// Its calls are numbered from 0, and those listed fail.
#[derive(Drop)]
pub struct MemClock {
    readings: Vec<u32>,
    given: u64,
    calls: Calls,
}

impl Model for MemClock {
    ghost use Rattle.std.specs.Prelude.{◌<◌, All, vec_len};
    ghost use Rattle.rep_io.specs.MemClock.{Hands};
    ghost use Rattle.rep_io.specs.Streams.{IsReading};

    ghost Value = { Hands };

    ghost view = { λ c. record { script = c.readings.items; given = c.given; calls = c.calls } };

    ghost invariant = { λ c. (0 < vec_len c.readings) × All IsReading c.readings.items };
}

impl MemClock {
    /// A clock with these readings, which fails at the calls of these numbers.
    pub fn new(readings: Vec<u32>, fails: Vec<u64>) -> MemClock
        requires not_empty { 0 < vec_len readings }
        requires in_range { All IsReading readings.items }
        ensures script { result.script ≡ readings.items }
        ensures calls { result.calls ≡ no_calls fails.items }
        ensures told { ⟦<MemClock as Clock>⟧.readings result ≡ Some [] }
        ensures count { ⟦<MemClock as Clock>⟧.faults result ≡ 0 }
    {
        MemClock {
            readings,
            given: 0,
            calls: Calls::new(fails),
        }
    }
}

impl Clock for MemClock {
    ghost readings = { λ c. Some (readings_of c.script c.given) };

    ghost faults = { λ c. c.calls.faults };

    /// The next reading.
    ///
    /// # Errors
    ///
    /// `Failed` exactly where the call's number is listed, or no further reading could be counted: after
    /// 2^64 - 1 of them.
    fn now(&mut self) -> Result<u32, Failed>
        ensures reading { Ticks (Some (readings_of self.old.script self.old.given))
            (Some (readings_of self.new.script self.new.given)) result }
        ensures cause { HasCause self.old.calls.faults self.new.calls.faults result }
        ensures next { IfOk result (λ minute. minute ≡ reading_at self.old.script self.old.given) }
        ensures fails { IsErr result ↔ (IsListed self.old.calls ⊎ (self.old.given ≡ last_count)) }
        ensures script { self.new.script ≡ self.old.script }
        ensures counted { CountsCall self.old.calls self.new.calls result }
    {
        self.calls.begin(self.given < u64::MAX)?;
        let last = self.readings.len() - 1;
        let index = last.min(self.given as usize);
        self.given += 1;
        Ok(self.readings[index])
    }
}
