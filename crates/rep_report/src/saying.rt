//! Lines on the output.
ghost use Rattle.std.specs.Prelude.{◌≡◌, ◌↔◌, ◌≤◌, ℕ, IsTrue};
ghost use Rattle.rep_io.specs.Causes.{Rose};
ghost use Rattle.std.specs.Io.KnownBytes.{append_known};
ghost use Rattle.rep_report.specs.Saying.{Concludes, PutsEnding, PutsOrFails, SaysCounts, SaysLine, YieldsToOutput, closing_text, status_of};

use crate::ending::Ending;
use crate::lines::{OutputLine, fault_line};
use rep_fields::Row;
use rep_io::{Sink, put_all};

/// Says a line that changes nothing of how the command ends, so a fault of the output is passed over: its count alone
/// tells that the line was cut.
pub fn say<K: Sink>(line: &OutputLine, out: &mut K)
    ensures says { SaysLine line.now (K.written out.old) (K.written out.new)
        (Rose (K.faults out.old) (K.faults out.new)) }
    ensures no_fault { PutsOrFails line.now (K.written out.old) (K.written out.new)
        (K.faults out.old) (K.faults out.new) }
    ensures later { K.faults out.old ≤ K.faults out.new }
{
    match put_all(out, line.bytes()) {
        Ok(()) => {}
        Err(_) => {}
    }
}

/// Says how a command ended: the line of its counts, then the ending's. Where the output fails at the counts, an ending
/// that yields to that becomes `SinkFault`; its line is tried then, too. Answers how the command ends.
pub fn conclude<K: Sink>(ending: Ending, counts: &OutputLine, out: &mut K) -> Ending
    ensures concludes { Concludes ending counts.now (K.written out.old) (K.written out.new)
        (K.faults out.old) (K.faults out.new) result }
    ensures later { K.faults out.old ≤ K.faults out.new }
    ensures no_fault { PutsEnding counts.now (K.written out.old) (K.written out.new)
        (K.faults out.old) (K.faults out.new) result }
    ensures answered { status_of result ≤ 1 → K.faults out.new ≡ K.faults out.old }
{
    let told = say_counts(ending, counts, out);
    say(&closing_line(told), out);
    told
}

// Says the line of the counts. Answers how the command ends.
fn say_counts<K: Sink>(ending: Ending, counts: &OutputLine, out: &mut K) -> Ending
    ensures says { SaysCounts ending counts.now (K.written out.old) (K.written out.new)
        (Rose (K.faults out.old) (K.faults out.new)) result }
    ensures later { K.faults out.old ≤ K.faults out.new }
    ensures no_fault { PutsOrFails counts.now (K.written out.old) (K.written out.new)
        (K.faults out.old) (K.faults out.new) }
    ensures counted { YieldsToOutput result → (K.written out.new ≡ append_known (K.written out.old) counts.now)
        × (K.faults out.new ≡ K.faults out.old) }
{
    match put_all(out, counts.bytes()) {
        Ok(()) => ending,
        Err(_) => {
            if yields_to_output(ending) {
                Ending::SinkFault
            } else {
                ending
            }
        }
    }
}

// Whether a fault of the output is told in place of this ending.
fn yields_to_output(ending: Ending) -> bool
    ensures { IsTrue result ↔ YieldsToOutput ending }
{
    match ending {
        Ending::AllAnswered | Ending::SomeRefused | Ending::OutOfMemory => true,
        Ending::SourceFault
        | Ending::SinkFault
        | Ending::DeviceFault
        | Ending::ClockFault
        | Ending::InputLimit => false,
    }
}

// The last line that an ending has.
fn closing_line(ending: Ending) -> OutputLine
    ensures { result ≡ closing_text ending }
{
    match ending {
        Ending::AllAnswered | Ending::SomeRefused => Row::new(),
        Ending::SourceFault
        | Ending::SinkFault
        | Ending::DeviceFault
        | Ending::ClockFault
        | Ending::OutOfMemory
        | Ending::InputLimit => fault_line(ending.status()),
    }
}
