//! One line's answer.
ghost use Rattle.std.specs.Prelude.{◌≡◌, ◌≢◌, ◌≤◌, ℕ, List, Err, IfErr};
ghost use Rattle.rep_io.specs.Causes.{Rose};
ghost use Rattle.rep_wire.specs.Request.{IsRequest};
ghost use Rattle.rep_wire.specs.LaneGrammar.{operator, IsLaneHead, IsMalformed, Orders};
ghost use Rattle.rep_wire.specs.declared.head.LaneHead.{LaneHead};
ghost use Rattle.rep_wire.specs.declared.request.Order.{Order};
ghost use Rattle.rep_lane.specs.Answers.{kind_of_reply};
ghost use Rattle.rep_lane.specs.Desk.{malformed_reply, steps_of};
ghost use Rattle.rep_lane.specs.Line.{IsOrdered, AnswersOne, WritesReply, end_of};
ghost use Rattle.rep_lane.specs.Next.{AnswersLong};

use crate::desk::{Desk, DeskFail};
use crate::lane::End;
use rep_fields::Day;
use rep_io::{Sink, put_all};
use rep_wire::{Answer, Code, LaneHead, Malformed, Order, Reply, Request, read_line, reply_line};

/// What a line got.
#[derive(Clone, Copy, Debug, PartialEq, Eq)]
pub enum Kind {
    Receipt,
    Refusal,
    Extraction,
}

/// Answers a line of a lane that isn't too long, whose head and number these are, and writes its reply or its extraction.
///
/// # Errors
///
/// `SinkFault` only where the sink failed; else by which fault the desk didn't answer. A front of an extraction may stand
/// then, where the fault is one of the device.
pub fn answer_line<K: Sink, Q: Desk>(
    head: &LaneHead,
    number: u64,
    line: &[u8],
    sink: &mut K,
    desk: &mut Q,
) -> Result<Kind, End>
    requires head { IsLaneHead head.now }
    ensures answers { AnswersOne (steps_of Q.asks Q.extracts Q.shows) head.now number line.now desk.old desk.new
        (K.written sink.old) (K.written sink.new) result }
    ensures untouched { IfErr result (λ ended. ended ≢ End.SinkFault
        → (ended ≡ End.DeviceFault → head.now.kind ≢ operator) → sink.new ≡ sink.old) }
    ensures sink_later { K.faults sink.old ≤ K.faults sink.new }
    ensures sink_fault { result ≡ Err End.SinkFault → Rose (K.faults sink.old) (K.faults sink.new) }
    ensures no_sink_fault { result ≢ Err End.SinkFault → K.faults sink.new ≡ K.faults sink.old }
{
    match read_line(line, head) {
        Ok(order) => answer_order(number, &order, sink, desk),
        Err(malformed) => refuse(number, malformed, sink, desk),
    }
}

/// Refuses a line that is too long, whose number this is, and writes its reply.
///
/// # Errors
///
/// `SinkFault` only where the sink failed.
pub fn refuse_long_line<K: Sink, Q: Desk>(
    number: u64,
    sink: &mut K,
    desk: &mut Q,
) -> Result<Kind, End>
    ensures answers { AnswersLong (steps_of Q.asks Q.extracts Q.shows) number desk.old desk.new
        (K.written sink.old) (K.written sink.new) result }
    ensures untouched { IfErr result (λ ended. ended ≢ End.SinkFault → sink.new ≡ sink.old) }
    ensures sink_later { K.faults sink.old ≤ K.faults sink.new }
    ensures sink_fault { result ≡ Err End.SinkFault → Rose (K.faults sink.old) (K.faults sink.new) }
    ensures no_sink_fault { result ≢ Err End.SinkFault → K.faults sink.new ≡ K.faults sink.old }
{
    refuse(number, Malformed { field: 0, seq: 0 }, sink, desk)
}

// Answers the line with this number, which orders this.
fn answer_order<K: Sink, Q: Desk>(
    number: u64,
    order: &Order,
    sink: &mut K,
    desk: &mut Q,
) -> Result<Kind, End>
    requires { IsOrdered order.now }
    ensures answers { (head : LaneHead) (line : List ℕ) → Orders head line order.now
        → AnswersOne (steps_of Q.asks Q.extracts Q.shows) head number line desk.old desk.new
        (K.written sink.old) (K.written sink.new) result }
    ensures untouched { (head : LaneHead) (line : List ℕ) → Orders head line order.now
        → IfErr result (λ ended. ended ≢ End.SinkFault
        → (ended ≡ End.DeviceFault → head.kind ≢ operator) → sink.new ≡ sink.old) }
    ensures sink_later { K.faults sink.old ≤ K.faults sink.new }
    ensures sink_fault { result ≡ Err End.SinkFault → Rose (K.faults sink.old) (K.faults sink.new) }
    ensures no_sink_fault { result ≢ Err End.SinkFault → K.faults sink.new ≡ K.faults sink.old }
{
    match order {
        Order::Asked(q) => answer_request(number, q, sink, desk),
        Order::Extract { seq, from, to } => extract_period(number, *seq, *from, *to, sink, desk),
    }
}

// Answers the line with this number, which asks for the request.
fn answer_request<K: Sink, Q: Desk>(
    number: u64,
    q: &Request,
    sink: &mut K,
    desk: &mut Q,
) -> Result<Kind, End>
    requires { IsRequest q.now }
    ensures answers { (head : LaneHead) (line : List ℕ) → Orders head line (Order.Asked q.now)
        → AnswersOne (steps_of Q.asks Q.extracts Q.shows) head number line desk.old desk.new
        (K.written sink.old) (K.written sink.new) result }
    ensures untouched { IfErr result (λ ended. ended ≢ End.SinkFault → sink.new ≡ sink.old) }
    ensures sink_later { K.faults sink.old ≤ K.faults sink.new }
    ensures sink_fault { result ≡ Err End.SinkFault → Rose (K.faults sink.old) (K.faults sink.new) }
    ensures no_sink_fault { result ≢ Err End.SinkFault → K.faults sink.new ≡ K.faults sink.old }
{
    match desk.call(q) {
        Ok(reply) => write_reply(number, q.seq, &reply, sink),
        Err(fail) => Err(end_of(fail)),
    }
}

// Answers the line with this number, which orders the extraction of the period.
fn extract_period<K: Sink, Q: Desk>(
    number: u64,
    seq: u64,
    from: Day,
    to: Day,
    sink: &mut K,
    desk: &mut Q,
) -> Result<Kind, End>
    requires { from ≤ to }
    ensures answers { (head : LaneHead) (line : List ℕ) → Orders head line (Order.Extract seq from to)
        → AnswersOne (steps_of Q.asks Q.extracts Q.shows) head number line desk.old desk.new
        (K.written sink.old) (K.written sink.new) result }
    ensures untouched { IfErr result (λ ended. ended ≢ End.SinkFault → ended ≢ End.DeviceFault
        → sink.new ≡ sink.old) }
    ensures sink_later { K.faults sink.old ≤ K.faults sink.new }
    ensures sink_fault { result ≡ Err End.SinkFault → Rose (K.faults sink.old) (K.faults sink.new) }
    ensures no_sink_fault { result ≢ Err End.SinkFault → K.faults sink.new ≡ K.faults sink.old }
{
    match desk.extract(number, seq, from, to, sink) {
        Ok(()) => Ok(Kind::Extraction),
        Err(fail) => Err(end_of(fail)),
    }
}

// Refuses the line with this number, which orders nothing.
fn refuse<K: Sink, Q: Desk>(
    number: u64,
    malformed: Malformed,
    sink: &mut K,
    desk: &mut Q,
) -> Result<Kind, End>
    ensures answers { (head : LaneHead) (line : List ℕ) → IsMalformed head line malformed
        → AnswersOne (steps_of Q.asks Q.extracts Q.shows) head number line desk.old desk.new
        (K.written sink.old) (K.written sink.new) result }
    ensures untouched { IfErr result (λ ended. ended ≢ End.SinkFault → sink.new ≡ sink.old) }
    ensures sink_later { K.faults sink.old ≤ K.faults sink.new }
    ensures sink_fault { result ≡ Err End.SinkFault → Rose (K.faults sink.old) (K.faults sink.new) }
    ensures no_sink_fault { result ≢ Err End.SinkFault → K.faults sink.new ≡ K.faults sink.old }
{
    let reply = refusal(malformed, desk.front());
    write_reply(number, malformed.seq, &reply, sink)
}

// Writes the reply to the line with this number.
fn write_reply<K: Sink>(number: u64, seq: u64, reply: &Reply, sink: &mut K) -> Result<Kind, End>
    ensures writes { WritesReply number seq reply.now (K.written sink.old) (K.written sink.new) result }
    ensures untouched { IfErr result (λ ended. ended ≢ End.SinkFault → sink.new ≡ sink.old) }
    ensures sink_later { K.faults sink.old ≤ K.faults sink.new }
    ensures sink_fault { result ≡ Err End.SinkFault → Rose (K.faults sink.old) (K.faults sink.new) }
    ensures no_sink_fault { result ≢ Err End.SinkFault → K.faults sink.new ≡ K.faults sink.old }
{
    match put_all(sink, reply_line(number, seq, reply).bytes()) {
        Ok(()) => Ok(kind_of(&reply.answer)),
        Err(_) => Err(End::SinkFault),
    }
}

// What a line got by this answer.
fn kind_of(answer: &Answer) -> Kind
    ensures { result ≡ kind_of_reply answer.now }
{
    match answer {
        Answer::Receipt(_) => Kind::Receipt,
        Answer::Refused(_) => Kind::Refusal,
    }
}

// The reply to a line that orders nothing.
fn refusal(malformed: Malformed, front: u32) -> Reply
    ensures { result ≡ malformed_reply malformed front }
{
    Reply {
        answer: Answer::Refused(Code::Malformed {
            field: malformed.field,
        }),
        front,
    }
}

// How a lane ends where its desk doesn't answer.
fn end_of(fail: DeskFail) -> End
    ensures { result ≡ end_of fail }
{
    match fail {
        DeskFail::Stopped => End::Stopped,
        DeskFail::DeviceFault => End::DeviceFault,
        DeskFail::ClockFault => End::ClockFault,
        DeskFail::SinkFault => End::SinkFault,
        DeskFail::OutOfMemory => End::OutOfMemory,
    }
}
