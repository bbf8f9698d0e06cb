ghost use Rattle.std.specs.Prelude.{◌≡◌, ◌⊎◌, ◌↔◌, ℕ, ◌-◌, ◌<◌, [], Some, min, length, IfOk, IsErr};
ghost use Rattle.std.specs.Io.KnownBytes.{append_known};
ghost use Rattle.rep_io.specs.Calls.{no_calls, IsListed, CountsCall};
ghost use Rattle.rep_io.specs.Causes.{HasCause};
ghost use Rattle.rep_io.specs.MemSink.{Tank};
ghost use Rattle.rep_io.specs.Streams.{Writes};

use crate::calls::Calls;
use crate::cause::{Failed, OutOfMemory};
use crate::sink::Sink;
use std::alloc::Global;
use std::marker::Model;

/// A sink in memory, with room for so many bytes.
///
/// Its calls are numbered from 0, and those listed fail.
#[derive(Drop)]
pub struct MemSink {
    bytes: Vec<u8>,
    room: usize,
    calls: Calls,
}

impl Model for MemSink {
    ghost use Rattle.std.specs.Prelude.{◌≤◌, vec_len, vec_capacity};
    ghost use Rattle.rep_io.specs.MemSink.{Tank};

    ghost Value = { Tank };

    ghost view = { λ s. record { bytes = s.bytes.items; room = s.room; calls = s.calls } };

    ghost invariant = { λ s. (vec_len s.bytes ≤ s.room) × (s.room ≤ vec_capacity s.bytes) };
}

impl MemSink {
    /// A sink with room for so many bytes, which fails at the calls of these numbers. It takes all its memory here.
    ///
    /// # Errors
    ///
    /// `OutOfMemory` where there was not enough memory for the room.
    pub fn new(alloc: Global, room: u64, fails: Vec<u64>) -> Result<MemSink, OutOfMemory>
        ensures empty { IfOk result (λ sink. sink
            ≡ record { bytes = []; room = room; calls = no_calls fails.items }) }
        ensures told { IfOk result (λ sink. ⟦<MemSink as Sink>⟧.written sink ≡ Some []) }
        ensures count { IfOk result (λ sink. ⟦<MemSink as Sink>⟧.faults sink ≡ 0) }
    {
        let room = room as usize;
        Ok(MemSink {
            bytes: Vec::with_capacity(alloc, room)?,
            room,
            calls: Calls::new(fails),
        })
    }

    /// The bytes that it has taken.
    pub fn bytes(&self) -> &[u8]
        ensures { result.now ≡ self.now.bytes }
    {
        self.bytes.as_slice()
    }
}

impl Sink for MemSink {
    ghost written = { λ s. Some s.bytes };

    ghost faults = { λ s. s.calls.faults };

    /// Takes as much of the front of the piece as the room that is left.
    ///
    /// # Errors
    ///
    /// `Failed` exactly where the call's number is listed, or no room is left for a piece that isn't empty.
    fn write(&mut self, piece: &[u8]) -> Result<usize, Failed>
        ensures bytes { Writes (Some self.old.bytes) (Some self.new.bytes) result piece.now }
        ensures cause { HasCause self.old.calls.faults self.new.calls.faults result }
        ensures amount { IfOk result (λ n. n
            ≡ min (length piece.now) (self.old.room - length self.old.bytes)) }
        ensures fails { IsErr result ↔ (IsListed self.old.calls
            ⊎ ((self.old.room ≡ length self.old.bytes) × (0 < length piece.now))) }
        ensures room { self.new.room ≡ self.old.room }
        ensures counted { CountsCall self.old.calls self.new.calls result }
    {
        let left = self.room - self.bytes.len();
        self.calls.begin(left > 0 || piece.is_empty())?;
        let count = left.min(piece.len());
        if self.bytes.extend_from_slice(&piece[..count]).is_err() {
            unreachable!();
        }
        Ok(count)
    }
}
