//! A lane's lines, answered one after another.
ghost use Rattle.std.specs.Prelude.{◌≡◌, ◌≢◌, ◌+◌, ◌<◌, ◌≤◌, ◌^◌, Err, IfErr};
ghost use Rattle.rep_io.specs.Causes.{Rose};
ghost use Rattle.rep_io.specs.Lines.{longest_text};
ghost use Rattle.rep_io.specs.Cutter.{IsAtLimit, IsOver};
ghost use Rattle.rep_wire.specs.LaneGrammar.{IsLaneHead, operator};
ghost use Rattle.rep_lane.specs.Desk.{steps_of};
ghost use Rattle.rep_lane.specs.Lane.{Runs};
ghost use Rattle.rep_lane.specs.Next.{TakesNext};

use crate::answering::{Kind, answer_line, refuse_long_line};
use crate::desk::Desk;
use crate::reading::next_line;
use rep_io::{Lines, Next, Sink, Source};
use rep_wire::LaneHead;

/// The number of the line behind the head, which is line 1.
pub const FIRST_LINE: u64 = 2;

/// How a lane ended.
#[derive(Clone, Copy, Debug, PartialEq, Eq)]
pub enum End {
    /// Its text was read to its end, and each line answered.
    Done,
    SourceFault,
    /// The text has more bytes than a text may have.
    InputLimit,
    /// Its sink failed at a reply or an extraction, of which a front may stand.
    SinkFault,
    /// The desk didn't answer, by the fault of that name.
    Stopped,
    DeviceFault,
    ClockFault,
    OutOfMemory,
}

/// How many lines got their whole reply or extraction, and how many of these were receipts and refusals.
#[derive(Clone, Copy, Debug, PartialEq, Eq)]
pub struct Tally {
    pub lines: u64,
    pub receipts: u64,
    pub refused: u64,
}

impl Tally {
    ghost use Rattle.std.specs.Prelude.{◌≡◌, ◌+◌, ◌<◌, ◌^◌};
    ghost use Rattle.rep_lane.specs.Answers.{as_receipt, as_refusal};

    /// One line more, which got this.
    fn count(&mut self, kind: Kind)
        requires lines { self.old.lines + 1 < 2 ^ 64 }
        requires receipts { self.old.receipts + 1 < 2 ^ 64 }
        requires refused { self.old.refused + 1 < 2 ^ 64 }
        ensures lines { self.new.lines ≡ self.old.lines + 1 }
        ensures receipts { self.new.receipts ≡ self.old.receipts + as_receipt kind }
        ensures refused { self.new.refused ≡ self.old.refused + as_refusal kind }
    {
        self.lines += 1;
        match kind {
            Kind::Receipt => self.receipts += 1,
            Kind::Refusal => self.refused += 1,
            Kind::Extraction => {}
        }
    }
}

/// A lane that has ended.
#[derive(Drop)]
pub struct LaneDone<S: Source, K: Sink> {
    pub lines: Lines<S>,
    pub sink: K,
    pub end: End,
    pub tally: Tally,
}

/// Answers the lines of a lane from the one with this number on, which is the next to be read, to its end. The head is
/// that of the lane. Where no line got its whole reply and neither the sink nor, in an operator's lane, the device failed,
/// the sink wasn't called. It takes no memory but the desk's.
pub fn run<S: Source, K: Sink, Q: Desk>(
    head: &LaneHead,
    number: u64,
    lines: Lines<S>,
    sink: K,
    desk: &mut Q,
) -> LaneDone<S, K>
    requires head { IsLaneHead head.now }
    requires number { number < 2 ^ 32 }
    ensures runs { Runs S.left (steps_of Q.asks Q.extracts Q.shows) head.now number lines desk.old desk.new
        (K.written sink) (K.written result.sink) result.tally result.end }
    ensures few { result.tally.lines < 2 ^ 63 }
    ensures untouched { result.tally.lines ≡ 0 → result.end ≢ End.SinkFault
        → (result.end ≡ End.DeviceFault → head.now.kind ≢ operator) → result.sink ≡ sink }
    ensures over { result.end ≡ End.Done → IsOver result.lines }
    ensures limit { result.end ≡ End.InputLimit → IsAtLimit result.lines }
    ensures source_later { S.faults lines.source ≤ S.faults result.lines.source }
    ensures source_fault { result.end ≡ End.SourceFault → Rose (S.faults lines.source) (S.faults result.lines.source) }
    ensures sink_later { K.faults sink ≤ K.faults result.sink }
    ensures sink_fault { result.end ≡ End.SinkFault → Rose (K.faults sink) (K.faults result.sink) }
    ensures no_source_fault { result.end ≢ End.SourceFault → S.faults result.lines.source ≡ S.faults lines.source }
    ensures no_sink_fault { result.end ≢ End.SinkFault → K.faults result.sink ≡ K.faults sink }
{
    let mut lines = lines;
    let mut sink = sink;
    let (end, tally) = answer_all(head, number, &mut lines, &mut sink, desk);
    LaneDone {
        lines,
        sink,
        end,
        tally,
    }
}

// Answers the lines from this number on, up to the end of the lane.
fn answer_all<S: Source, K: Sink, Q: Desk>(
    head: &LaneHead,
    first: u64,
    lines: &mut Lines<S>,
    sink: &mut K,
    desk: &mut Q,
) -> (End, Tally)
    requires head { IsLaneHead head.now }
    requires number { first < 2 ^ 32 }
    ensures runs { Runs S.left (steps_of Q.asks Q.extracts Q.shows) head.now first lines.old desk.old desk.new
        (K.written sink.old) (K.written sink.new) result.1 result.0 }
    ensures few { result.1.lines < 2 ^ 63 }
    ensures untouched { result.1.lines ≡ 0 → result.0 ≢ End.SinkFault
        → (result.0 ≡ End.DeviceFault → head.now.kind ≢ operator) → sink.new ≡ sink.old }
    ensures over { result.0 ≡ End.Done → IsOver lines.new }
    ensures limit { result.0 ≡ End.InputLimit → IsAtLimit lines.new }
    ensures source_later { S.faults lines.old.source ≤ S.faults lines.new.source }
    ensures source_fault { result.0 ≡ End.SourceFault → Rose (S.faults lines.old.source) (S.faults lines.new.source) }
    ensures sink_later { K.faults sink.old ≤ K.faults sink.new }
    ensures sink_fault { result.0 ≡ End.SinkFault → Rose (K.faults sink.old) (K.faults sink.new) }
    ensures no_source_fault { result.0 ≢ End.SourceFault → S.faults lines.new.source ≡ S.faults lines.old.source }
    ensures no_sink_fault { result.0 ≢ End.SinkFault → K.faults sink.new ≡ K.faults sink.old }
{
    let mut number = first;
    let mut tally = Tally {
        lines: 0,
        receipts: 0,
        refused: 0,
    };
    'answers: loop {
        match answer_next(head, number, lines, sink, desk) {
            Ok(kind) => {
                tally.count(kind);
                number += 1;
            }
            Err(end) => return (end, tally),
        }
    }
}

// Answers the next line of the lane, which has this number.
fn answer_next<S: Source, K: Sink, Q: Desk>(
    head: &LaneHead,
    number: u64,
    lines: &mut Lines<S>,
    sink: &mut K,
    desk: &mut Q,
) -> Result<Kind, End>
    requires head { IsLaneHead head.now }
    ensures takes { TakesNext S.left (steps_of Q.asks Q.extracts Q.shows) head.now number lines.old lines.new desk.old desk.new
        (K.written sink.old) (K.written sink.new) result }
    ensures within { lines.new.taken ≤ longest_text + 1 }
    ensures untouched { IfErr result (λ ended. ended ≢ End.SinkFault
        → (ended ≡ End.DeviceFault → head.now.kind ≢ operator) → sink.new ≡ sink.old) }
    ensures over { result ≡ Err End.Done → IsOver lines.new }
    ensures limit { result ≡ Err End.InputLimit → IsAtLimit lines.new }
    ensures source_later { S.faults lines.old.source ≤ S.faults lines.new.source }
    ensures source_fault { result ≡ Err End.SourceFault → Rose (S.faults lines.old.source) (S.faults lines.new.source) }
    ensures sink_later { K.faults sink.old ≤ K.faults sink.new }
    ensures sink_fault { result ≡ Err End.SinkFault → Rose (K.faults sink.old) (K.faults sink.new) }
    ensures no_source_fault { result ≢ Err End.SourceFault → S.faults lines.new.source ≡ S.faults lines.old.source }
    ensures no_sink_fault { result ≢ Err End.SinkFault → K.faults sink.new ≡ K.faults sink.old }
{
    match next_line(lines) {
        Next::Line { bytes, crlf: _ } => answer_line(head, number, bytes.bytes(), sink, desk),
        Next::TooLong => refuse_long_line(number, sink, desk),
        Next::End => Err(End::Done),
        Next::SourceFault => Err(End::SourceFault),
        Next::InputLimit => Err(End::InputLimit),
    }
}
