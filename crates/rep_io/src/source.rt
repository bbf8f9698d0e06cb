ghost use Rattle.std.specs.Prelude.{ℕ, List};
ghost use Rattle.std.specs.Prelude.{Option};
ghost use Rattle.rep_io.specs.Causes.{HasCause};
ghost use Rattle.rep_io.specs.Streams.{Reads};

use crate::cause::Failed;

/// What bytes are read from: a file, or a text in memory.
pub trait Source {
    /// The bytes that were not read yet, where the source tells them. It tells them after a call exactly where it
    /// told them before.
    ghost left: { Self → Option (List ℕ) };

    /// How often the source has failed: a 64-bit count that never falls, and that a call which does not fail leaves as it is.
    ghost faults: { Self → ℕ };

    /// Puts bytes that were not read yet into the front of `into`, and answers how many. `Ok(0)` for a buffer with
    /// room is the end.
    ///
    /// # Errors
    ///
    /// `Failed` only where the count of faults rose in this call. Then no byte was taken.
    fn read(&mut self, into: &mut [u8]) -> Result<usize, Failed>
        ensures bytes { Reads (left self.old) (left self.new) result into.new }
        ensures cause { HasCause (faults self.old) (faults self.new) result };
}
