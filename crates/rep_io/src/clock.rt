ghost use Rattle.std.specs.Prelude.{ℕ, List};
ghost use Rattle.std.specs.Prelude.{Option};
ghost use Rattle.rep_io.specs.Causes.{HasCause};
ghost use Rattle.rep_io.specs.Streams.{Ticks};

use crate::cause::Failed;

/// The least minute that a clock answers: at each offset from UTC its local time is not before 1970.
pub const FIRST_READING: u32 = 840;

/// The greatest minute that a clock answers: at each offset from UTC its local time is not after the year 9999.
pub const LAST_READING: u32 = 4_223_370_839;

/// What tells the time, in whole minutes since 1970-01-01T00:00 UTC.
pub trait Clock {
    /// All the readings that were given, where the clock tells them. It tells them after a call exactly where it
    /// told them before.
    ghost readings: { Self → Option (List ℕ) };

    /// How often the clock has failed: a 64-bit count that never falls, and that a call which does not fail leaves as it is.
    ghost faults: { Self → ℕ };

    /// The minute now, from `FIRST_READING` to `LAST_READING`. It need not be later than one before.
    ///
    /// # Errors
    ///
    /// `Failed` only where the count of faults rose in this call. Then no reading was given.
    fn now(&mut self) -> Result<u32, Failed>
        ensures reading { Ticks (readings self.old) (readings self.new) result }
        ensures cause { HasCause (faults self.old) (faults self.new) result };
}
