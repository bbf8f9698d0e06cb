ghost use Rattle.std.specs.Prelude.{ℕ, List};
ghost use Rattle.std.specs.Prelude.{Option};
ghost use Rattle.rep_io.specs.Causes.{HasCause};
ghost use Rattle.rep_io.specs.Streams.{Writes};

use crate::cause::Failed;

/// What bytes are written to: a file, or a buffer in memory.
pub trait Sink {
    /// All the bytes that were taken, where the sink tells them. It tells them after a call exactly where it told
    /// them before.
    ghost written: { Self → Option (List ℕ) };

    /// How often the sink has failed: a 64-bit count that never falls, and that a call which does not fail leaves as it is.
    ghost faults: { Self → ℕ };

    /// Takes a front of the piece, and answers how many bytes: one at least of a piece that isn't empty.
    ///
    /// # Errors
    ///
    /// `Failed` only where the count of faults rose in this call. Then no byte was taken.
    fn write(&mut self, piece: &[u8]) -> Result<usize, Failed>
        ensures bytes { Writes (written self.old) (written self.new) result piece.now }
        ensures cause { HasCause (faults self.old) (faults self.new) result };
}

/// A sink failed while a piece was being written.
#[derive(Clone, Copy, Debug, PartialEq, Eq)]
pub struct SinkFault;
