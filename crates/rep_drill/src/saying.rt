//! What is said of a drill.
ghost use Rattle.std.specs.Prelude.{◌≡◌, ◌↔◌, ◌+◌, ◌≤◌, ◌++◌, length, IsTrue};
ghost use Rattle.rep_report.specs.Report.{barred};
ghost use Rattle.rep_io.specs.Causes.{HasCause};
ghost use Rattle.rep_io.specs.Streams.{WritesAll};
ghost use Rattle.rep_wire.specs.Reply.{reply_text};
ghost use Rattle.rep_drill.specs.Saying.{IsRefusal, SeesRefusal, drill_text, long_text, schedule_fault, seen_text, short_text};

use rep_fields::Row;
use rep_io::{Sink, SinkFault, put_all};
use rep_report::OutputLine;
use rep_wire::{Answer, Reply, reply_line};
use rep_world::Seen;

// Appends a number behind a bar.
#[tactic(auto, using(rep_report::proofs::Decimals::decimal_fits))]
fn push_barred(line: &mut OutputLine, number: u64)
    requires { length line.old + 21 ≤ 128 }
    ensures value { line.new ≡ line.old ++ barred number }
    ensures len { length line.new ≤ length line.old + 21 }
{
    line.push(b'|');
    line.push_decimal(number);
}

// A letter and the number of an event.
fn short_line(letter: &[u8], event: u64) -> OutputLine
    requires { length letter.now ≤ 20 }
    ensures { result ≡ short_text letter.now event }
{
    let mut line = Row::new();
    line.push_bytes(letter);
    push_barred(&mut line, event);
    line.push(b'\n');
    line
}

// The same with another number.
fn long_line(letter: &[u8], event: u64, n: u64) -> OutputLine
    requires { length letter.now ≤ 20 }
    ensures { result ≡ long_text letter.now event n }
{
    let mut line = Row::new();
    line.push_bytes(letter);
    push_barred(&mut line, event);
    push_barred(&mut line, n);
    line.push(b'\n');
    line
}

/// The last line of a schedule that was played: how many events there were, and how many entries the contents have.
#[tactic(auto, unfolding(crate::specs::Saying::drill_text))]
pub fn drill_line(events: u64, entries: u32) -> OutputLine
    ensures { result ≡ drill_text events entries }
{
    long_line(b"DRILL", events, u64::from(entries))
}

/// The line of a schedule's line that is refused.
#[tactic(auto, unfolding(crate::specs::Saying::schedule_fault))]
pub fn schedule_fault_line(line: u64) -> OutputLine
    ensures { result ≡ schedule_fault line }
{
    short_line(b"FAULT|3|SCHEDULE", line)
}

// Says a letter and the number of an event.
fn say_short<K: Sink>(letter: &[u8], event: u64, out: &mut K) -> Result<(), SinkFault>
    requires { length letter.now ≤ 20 }
    ensures bytes { WritesAll (K.written out.old) (K.written out.new) result (short_text letter.now event) }
    ensures cause { HasCause (K.faults out.old) (K.faults out.new) result }
{
    put_all(out, short_line(letter, event).bytes())
}

// The same with another number.
fn say_long<K: Sink>(letter: &[u8], event: u64, n: u64, out: &mut K) -> Result<(), SinkFault>
    requires { length letter.now ≤ 20 }
    ensures bytes { WritesAll (K.written out.old) (K.written out.new) result (long_text letter.now event n) }
    ensures cause { HasCause (K.faults out.old) (K.faults out.new) result }
{
    put_all(out, long_line(letter, event, n).bytes())
}

// Says a reply.
fn say_reply<K: Sink>(event: u64, seq: u64, reply: &Reply, out: &mut K) -> Result<(), SinkFault>
    ensures bytes { WritesAll (K.written out.old) (K.written out.new) result (reply_text event seq reply.now) }
    ensures cause { HasCause (K.faults out.old) (K.faults out.new) result }
{
    put_all(out, reply_line(event, seq, reply).bytes())
}

/// Says what was seen of the event with this number.
///
/// # Errors
///
/// `SinkFault` only where the output failed in this call; a front of the line was said then.
pub(crate) fn say_seen<K: Sink>(event: u64, seen: &Seen, out: &mut K) -> Result<(), SinkFault>
    ensures bytes { WritesAll (K.written out.old) (K.written out.new) result (seen_text event seen.now) }
    ensures cause { HasCause (K.faults out.old) (K.faults out.new) result }
{
    match seen {
        Seen::Sent { k } => say_long(b"S", event, u64::from(*k), out),
        Seen::Answered { seq, reply } => say_reply(event, *seq, reply, out),
        Seen::ReplyLost => say_short(b"L", event, out),
        Seen::Failed { n } => say_long(b"F", event, u64::from(*n), out),
        Seen::Crashed { n } => say_long(b"K", event, u64::from(*n), out),
        Seen::AtRest { n } => say_long(b"C", event, u64::from(*n), out),
        Seen::Opened { n } => say_long(b"O", event, u64::from(*n), out),
        Seen::Extracted { bytes } => say_long(b"X", event, *bytes, out),
        Seen::Idle => say_short(b"-", event, out),
    }
}

/// Whether a refusal arrived.
pub(crate) fn sees_refusal(seen: &Seen) -> bool
    ensures { IsTrue result ↔ SeesRefusal seen.now }
{
    match seen {
        Seen::Answered { seq: _, reply } => is_refusal(reply),
        Seen::Sent { .. }
        | Seen::ReplyLost
        | Seen::Failed { .. }
        | Seen::Crashed { .. }
        | Seen::AtRest { .. }
        | Seen::Opened { .. }
        | Seen::Extracted { .. }
        | Seen::Idle => false,
    }
}

// Whether the reply is one.
fn is_refusal(reply: &Reply) -> bool
    ensures { IsTrue result ↔ IsRefusal reply.now.answer }
{
    match reply.answer {
        Answer::Receipt(_) => false,
        Answer::Refused(_) => true,
    }
}
