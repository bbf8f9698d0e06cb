//! The lane's lines, served one after another.
ghost use Rattle.std.specs.Prelude.{◌≡◌, ◌≢◌, ◌↔◌, ◌+◌, ◌<◌, ◌≤◌, ◌^◌, ℕ, List, [], Err, IfOk, IfErr, IsTrue};
ghost use Rattle.rep_io.specs.Causes.{Rose};
ghost use Rattle.rep_wire.specs.LaneGrammar.{IsLaneHead};
ghost use Rattle.rep_lane.specs.LaneText.{HasRead};
ghost use Rattle.rep_print.specs.Printing.{AsksEmployer, IsEmployerLine};
ghost use Rattle.rep_print.specs.Steps.{EndsAtHead, HeadsBy, AnswersFirst, Begins, IsHeaded, IsRefusal, GoesOn, Laned, ending_of, count_first};

use crate::desk::PrintDesk;
use crate::ending::PrintEnding;
use rep_io::{Clock, Lines, Next, Sink, Source};
use rep_lane::{End, FIRST_LINE, Kind, NoHead, Tally, answer_line, next_line, read_head, run};
use rep_report::Ending;
use rep_wire::{Ask, LaneHead, Order, read_line};

/// The kind of an operator's lane.
const OPERATOR: u8 = 0;

/// No line has its whole reply yet.
const NO_LINES: Tally = Tally {
    lines: 0,
    receipts: 0,
    refused: 0,
};

/// A lane that was served, up to its end or as far as it went.
#[derive(Drop)]
pub struct Lane<S: Source, K: Sink> {
    pub lines: Lines<S>,
    pub out: K,
    pub ending: PrintEnding,
    /// The lines whose whole reply was written.
    pub tally: Tally,
}

/// Serves the lane: its head, the employer's request on line 2, and the lines behind it.
pub fn serve<S: Source, K: Sink, C: Clock>(
    lines: Lines<S>,
    out: K,
    desk: &mut PrintDesk<C>,
) -> Lane<S, K>
    requires empty { desk.old.history ≡ [] }
    ensures laned { Laned C.readings desk.old desk.new (K.written out) (K.written result.out)
        result.tally result.ending (λ text. HasRead S.left lines text []) }
    ensures unread { IsRefusal result.ending → desk.new ≡ desk.old }
    ensures source_later { S.faults lines.source ≤ S.faults result.lines.source }
    ensures source_fault { result.ending ≡ PrintEnding.Served Ending.SourceFault
        → Rose (S.faults lines.source) (S.faults result.lines.source) }
    ensures no_source_fault { result.ending ≢ PrintEnding.Served Ending.SourceFault
        → S.faults result.lines.source ≡ S.faults lines.source }
    ensures clock_later { C.faults desk.old.clock ≤ C.faults desk.new.clock }
    ensures clock_fault { result.ending ≡ PrintEnding.Served Ending.ClockFault
        → Rose (C.faults desk.old.clock) (C.faults desk.new.clock) }
    ensures no_clock_fault { result.ending ≢ PrintEnding.Served Ending.ClockFault
        → C.faults desk.new.clock ≡ C.faults desk.old.clock }
    ensures out_later { K.faults out ≤ K.faults result.out }
    ensures out_fault { result.ending ≡ PrintEnding.Served Ending.SinkFault
        → Rose (K.faults out) (K.faults result.out) }
{
    let mut lines = lines;
    match operator_head(&mut lines) {
        Ok(head) => serve_lines(&head, lines, out, desk),
        Err(ending) => Lane {
            lines,
            out,
            ending,
            tally: NO_LINES,
        },
    }
}

// The head of the operator's lane, which is its first line.
fn operator_head<S: Source>(lines: &mut Lines<S>) -> Result<LaneHead, PrintEnding>
    ensures heads { (text : List ℕ) → HasRead S.left lines.old text [] → HeadsBy S.left lines.new text result }
    ensures in_range { IfOk result IsLaneHead }
    ensures ends { IfErr result EndsAtHead }
    ensures later { S.faults lines.old.source ≤ S.faults lines.new.source }
    ensures source_fault { result ≡ Err (PrintEnding.Served Ending.SourceFault)
        → Rose (S.faults lines.old.source) (S.faults lines.new.source) }
    ensures no_source_fault { result ≢ Err (PrintEnding.Served Ending.SourceFault)
        → S.faults lines.new.source ≡ S.faults lines.old.source }
{
    match read_head(lines) {
        Ok(head) => {
            if head.kind == OPERATOR {
                Ok(head)
            } else {
                Err(PrintEnding::NoHead)
            }
        }
        Err(NoHead::OffGrammar) => Err(PrintEnding::NoHead),
        Err(NoHead::SourceFault) => Err(PrintEnding::Served(Ending::SourceFault)),
        Err(NoHead::InputLimit) => Err(PrintEnding::Served(Ending::InputLimit)),
    }
}

// Serves the lines behind the head.
fn serve_lines<S: Source, K: Sink, C: Clock>(
    head: &LaneHead,
    lines: Lines<S>,
    out: K,
    desk: &mut PrintDesk<C>,
) -> Lane<S, K>
    requires empty { desk.old.history ≡ [] }
    requires head { IsLaneHead head.now }
    ensures laned { Laned C.readings desk.old desk.new (K.written out) (K.written result.out)
        result.tally result.ending (IsHeaded S.left head.now lines) }
    ensures unread { IsRefusal result.ending → desk.new ≡ desk.old }
    ensures source_later { S.faults lines.source ≤ S.faults result.lines.source }
    ensures source_fault { result.ending ≡ PrintEnding.Served Ending.SourceFault
        → Rose (S.faults lines.source) (S.faults result.lines.source) }
    ensures no_source_fault { result.ending ≢ PrintEnding.Served Ending.SourceFault
        → S.faults result.lines.source ≡ S.faults lines.source }
    ensures clock_later { C.faults desk.old.clock ≤ C.faults desk.new.clock }
    ensures clock_fault { result.ending ≡ PrintEnding.Served Ending.ClockFault
        → Rose (C.faults desk.old.clock) (C.faults desk.new.clock) }
    ensures no_clock_fault { result.ending ≢ PrintEnding.Served Ending.ClockFault
        → C.faults desk.new.clock ≡ C.faults desk.old.clock }
    ensures out_later { K.faults out ≤ K.faults result.out }
    ensures out_fault { result.ending ≡ PrintEnding.Served Ending.SinkFault
        → Rose (K.faults out) (K.faults result.out) }
{
    let mut lines = lines;
    let mut out = out;
    match begin(head, &mut lines, &mut out, desk) {
        Ok(kind) => go_on(head, kind, lines, out, desk),
        Err(ending) => Lane {
            lines,
            out,
            ending,
            tally: NO_LINES,
        },
    }
}

// Takes line 2, and answers it where it asks for the employer's record. Answers what it got.
fn begin<S: Source, K: Sink, C: Clock>(
    head: &LaneHead,
    lines: &mut Lines<S>,
    out: &mut K,
    desk: &mut PrintDesk<C>,
) -> Result<Kind, PrintEnding>
    requires head { IsLaneHead head.now }
    ensures begins { Begins S.left C.readings C.faults head.now lines.old lines.new desk.old desk.new
        (K.written out.old) (K.written out.new) result }
    ensures source_later { S.faults lines.old.source ≤ S.faults lines.new.source }
    ensures source_fault { result ≡ Err (PrintEnding.Served Ending.SourceFault)
        → Rose (S.faults lines.old.source) (S.faults lines.new.source) }
    ensures no_source_fault { result ≢ Err (PrintEnding.Served Ending.SourceFault)
        → S.faults lines.new.source ≡ S.faults lines.old.source }
    ensures out_later { K.faults out.old ≤ K.faults out.new }
    ensures out_fault { result ≡ Err (PrintEnding.Served Ending.SinkFault)
        → Rose (K.faults out.old) (K.faults out.new) }
{
    match next_line(lines) {
        Next::Line { bytes, crlf: _ } => answer_first(head, bytes.bytes(), out, desk),
        Next::TooLong => Err(PrintEnding::NoEmployer),
        Next::End => Err(PrintEnding::NoEmployer),
        Next::SourceFault => Err(PrintEnding::Served(Ending::SourceFault)),
        Next::InputLimit => Err(PrintEnding::Served(Ending::InputLimit)),
    }
}

// Answers line 2 where it asks for the employer's record. Answers what it got.
fn answer_first<K: Sink, C: Clock>(
    head: &LaneHead,
    line: &[u8],
    out: &mut K,
    desk: &mut PrintDesk<C>,
) -> Result<Kind, PrintEnding>
    requires head { IsLaneHead head.now }
    ensures answers { AnswersFirst C.readings C.faults head.now line.now desk.old desk.new
        (K.written out.old) (K.written out.new) result }
    ensures out_later { K.faults out.old ≤ K.faults out.new }
    ensures out_fault { result ≡ Err (PrintEnding.Served Ending.SinkFault)
        → Rose (K.faults out.old) (K.faults out.new) }
{
    if !asks_employer(line, head) {
        return Err(PrintEnding::NoEmployer);
    }
    match answer_line(head, FIRST_LINE, line, out, desk) {
        Ok(kind) => Ok(kind),
        Err(end) => Err(PrintEnding::Served(ending_of(end, 0))),
    }
}

// Whether the line asks for the employer's record.
fn asks_employer(line: &[u8], head: &LaneHead) -> bool
    requires { IsLaneHead head.now }
    ensures { IsTrue result ↔ IsEmployerLine head.now line.now }
{
    match read_line(line, head) {
        Ok(Order::Asked(q)) => is_employer(&q.ask),
        Ok(Order::Extract { .. }) => false,
        Err(_) => false,
    }
}

// Whether the employer's record is asked for.
fn is_employer(ask: &Ask) -> bool
    ensures { IsTrue result ↔ AsksEmployer ask.now }
{
    match ask {
        Ask::Employer { .. } => true,
        Ask::Mark { .. } | Ask::Worker { .. } | Ask::Adjust { .. } | Ask::Event { .. } => false,
    }
}

// Serves the lines behind line 2, which got this.
fn go_on<S: Source, K: Sink, C: Clock>(
    head: &LaneHead,
    kind: Kind,
    lines: Lines<S>,
    out: K,
    desk: &mut PrintDesk<C>,
) -> Lane<S, K>
    requires head { IsLaneHead head.now }
    ensures goes_on { GoesOn S.left C.readings C.faults head.now kind lines desk.old desk.new
        (K.written out) (K.written result.out) result.tally result.ending }
    ensures source_later { S.faults lines.source ≤ S.faults result.lines.source }
    ensures source_fault { result.ending ≡ PrintEnding.Served Ending.SourceFault
        → Rose (S.faults lines.source) (S.faults result.lines.source) }
    ensures no_source_fault { result.ending ≢ PrintEnding.Served Ending.SourceFault
        → S.faults result.lines.source ≡ S.faults lines.source }
    ensures out_later { K.faults out ≤ K.faults result.out }
    ensures out_fault { result.ending ≡ PrintEnding.Served Ending.SinkFault
        → Rose (K.faults out) (K.faults result.out) }
{
    let done = run(head, FIRST_LINE + 1, lines, out, desk);
    let tally = count_first(kind, done.tally);
    Lane {
        lines: done.lines,
        out: done.sink,
        ending: PrintEnding::Served(ending_of(done.end, tally.refused)),
        tally,
    }
}

// One line more at the front, which got this.
fn count_first(kind: Kind, tally: Tally) -> Tally
    requires lines { tally.lines + 1 < 2 ^ 64 }
    requires receipts { tally.receipts + 1 < 2 ^ 64 }
    requires refused { tally.refused + 1 < 2 ^ 64 }
    ensures { result ≡ count_first kind tally }
{
    let (receipts, refused) = match kind {
        Kind::Receipt => (1, 0),
        Kind::Refusal => (0, 1),
        Kind::Extraction => (0, 0),
    };
    Tally {
        lines: 1 + tally.lines,
        receipts: receipts + tally.receipts,
        refused: refused + tally.refused,
    }
}

// How a lane that was served ends, where so many lines were refused.
fn ending_of(end: End, refused: u64) -> Ending
    ensures { result ≡ ending_of end refused }
{
    match end {
        End::Done => {
            if refused == 0 {
                Ending::AllAnswered
            } else {
                Ending::SomeRefused
            }
        }
        End::SourceFault => Ending::SourceFault,
        End::InputLimit => Ending::InputLimit,
        End::SinkFault => Ending::SinkFault,
        End::Stopped | End::DeviceFault => Ending::DeviceFault,
        End::ClockFault => Ending::ClockFault,
        End::OutOfMemory => Ending::OutOfMemory,
    }
}
