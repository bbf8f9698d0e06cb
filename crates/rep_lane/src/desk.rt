//! Where a lane's requests are served.
ghost use Rattle.std.specs.Prelude.{◌≡◌, ◌≢◌, ◌≤◌, ℕ, Result, Err, IfErr};
ghost use Rattle.rep_io.specs.Causes.{Rose};
ghost use Rattle.rep_wire.specs.Request.{IsRequest};
ghost use Rattle.rep_wire.specs.declared.request.Request.{Request};
ghost use Rattle.rep_wire.specs.declared.reply.Reply.{Reply};
ghost use Rattle.rep_lane.specs.Answers.{Extracted};
ghost use Rattle.rep_lane.specs.Desk.{PutsExtract};
ghost use Rattle.rep_lane.specs.declared.desk.DeskFail.{DeskFail};

use rep_fields::Day;
use rep_io::Sink;
use rep_wire::{Reply, Request};

/// Why a desk didn't answer.
#[derive(Clone, Copy, Debug, PartialEq, Eq)]
pub enum DeskFail {
    /// A device call failed in an earlier call, and nothing is recorded any more.
    Stopped,
    /// A device call failed in this call.
    DeviceFault,
    /// The clock failed in this call.
    ClockFault,
    /// The lane's sink failed in this call, at the bytes of an extraction.
    SinkFault,
    OutOfMemory,
}

/// What serves a lane's requests.
pub trait Desk {
    /// What a call relates: the desk before, the request, the answer, and the desk after.
    ghost asks: { Self → Request → Result Reply DeskFail → Self → Type 0 };

    /// What an extraction relates: the desk before, the first and the last day, what is due for them, the answer, and the
    /// desk after.
    ghost extracts: { Self → ℕ → ℕ → Extracted → Result (Unit {0}) DeskFail → Self → Type 0 };

    /// What a look relates: the desk before, how many entries it shows, and the desk after.
    ghost shows: { Self → ℕ → Self → Type 0 };

    /// Answers a request.
    fn call(&mut self, q: &Request) -> Result<Reply, DeskFail>
        requires { IsRequest q.now }
        ensures answers { asks self.old q.now result self.new }
        ensures no_sink_fault { result ≢ Err DeskFail.SinkFault };

    /// Writes the extraction that the line with this number orders: a line of its own, `F|line|seq|bytes|front`, and then
    /// the AFD of the recording days from `from` to `to`.
    ///
    /// # Errors
    ///
    /// Which fault came. A front of the bytes was written then, and nothing where it is neither of the sink nor of the
    /// device.
    fn extract<K: Sink>(
        &mut self,
        line: u64,
        seq: u64,
        from: Day,
        to: Day,
        sink: &mut K,
    ) -> Result<(), DeskFail>
        requires { from ≤ to }
        ensures puts { PutsExtract extracts line seq from to self.old self.new (K.written sink.old) (K.written sink.new) result }
        ensures untouched { IfErr result (λ why. why ≢ DeskFail.SinkFault → why ≢ DeskFail.DeviceFault
            → sink.new ≡ sink.old) }
        ensures sink_later { K.faults sink.old ≤ K.faults sink.new }
        ensures sink_fault { result ≡ Err DeskFail.SinkFault → Rose (K.faults sink.old) (K.faults sink.new) }
        ensures sink_kept { result ≢ Err DeskFail.SinkFault → K.faults sink.new ≡ K.faults sink.old };

    /// How many entries the history has that the desk shows now.
    fn front(&mut self) -> u32
        ensures { shows self.old result self.new };
}
