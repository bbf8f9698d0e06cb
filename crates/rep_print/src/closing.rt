//! How `print` ends: the AFD, and the last lines on the output.
ghost use Rattle.std.specs.Prelude.{◌≡◌, ◌≢◌, ◌≤◌, Err};
ghost use Rattle.rep_io.specs.Causes.{Rose};
ghost use Rattle.rep_print.specs.Steps.{Closes, IsDone, HasNoCounts, Told, counts_line};
ghost use Rattle.rep_print.specs.Writing.{HasEmployer};

use crate::desk::PrintDesk;
use crate::ending::PrintEnding;
use rep_fields::Row;
use rep_io::{Clock, Sink};
use rep_lane::Tally;
use rep_report::{Ending, OutputLine, conclude, lane_fault_line, run_line, say};

/// Makes the AFD where every line was answered. Answers how the lane ends now.
pub fn close<K: Sink, C: Clock>(
    ending: PrintEnding,
    desk: &mut PrintDesk<C>,
    file: &mut K,
) -> PrintEnding
    requires employer { IsDone ending → HasEmployer desk.old.history }
    ensures closes { Closes ending desk.old.zone desk.old.history (C.readings desk.old.clock) (C.readings desk.new.clock)
        (K.written file.old) (K.written file.new) result }
    ensures history { desk.new.history ≡ desk.old.history }
    ensures clock_later { C.faults desk.old.clock ≤ C.faults desk.new.clock }
    ensures clock_fault { result ≡ PrintEnding.Served Ending.ClockFault → ending ≢ PrintEnding.Served Ending.ClockFault
        → Rose (C.faults desk.old.clock) (C.faults desk.new.clock) }
    ensures file_later { K.faults file.old ≤ K.faults file.new }
    ensures file_fault { result ≡ PrintEnding.Served Ending.SinkFault → ending ≢ PrintEnding.Served Ending.SinkFault
        → Rose (K.faults file.old) (K.faults file.new) }
    ensures no_clock_fault { result ≢ PrintEnding.Served Ending.ClockFault → C.faults desk.new.clock ≡ C.faults desk.old.clock }
    ensures no_file_fault { result ≢ PrintEnding.Served Ending.SinkFault → K.faults file.new ≡ K.faults file.old }
    ensures unopened { (IsDone result → ⊥) → result ≢ PrintEnding.Served Ending.SinkFault → file.new ≡ file.old }
    ensures untouched { (IsDone ending → ⊥) → file.new ≡ file.old }
    ensures unread { (IsDone ending → ⊥) → desk.new ≡ desk.old }
{
    match ending {
        PrintEnding::Served(Ending::AllAnswered) => close_done(ending, desk, file),
        PrintEnding::Served(Ending::SomeRefused) => close_done(ending, desk, file),
        other => other,
    }
}

// Makes the AFD of a lane that ends so where that succeeds.
fn close_done<K: Sink, C: Clock>(
    ending: PrintEnding,
    desk: &mut PrintDesk<C>,
    file: &mut K,
) -> PrintEnding
    requires done { IsDone ending }
    requires employer { HasEmployer desk.old.history }
    ensures closes { Closes ending desk.old.zone desk.old.history (C.readings desk.old.clock) (C.readings desk.new.clock)
        (K.written file.old) (K.written file.new) result }
    ensures history { desk.new.history ≡ desk.old.history }
    ensures clock_later { C.faults desk.old.clock ≤ C.faults desk.new.clock }
    ensures clock_fault { result ≡ PrintEnding.Served Ending.ClockFault
        → Rose (C.faults desk.old.clock) (C.faults desk.new.clock) }
    ensures file_later { K.faults file.old ≤ K.faults file.new }
    ensures file_fault { result ≡ PrintEnding.Served Ending.SinkFault
        → Rose (K.faults file.old) (K.faults file.new) }
    ensures no_clock_fault { result ≢ PrintEnding.Served Ending.ClockFault → C.faults desk.new.clock ≡ C.faults desk.old.clock }
    ensures no_file_fault { result ≢ PrintEnding.Served Ending.SinkFault → K.faults file.new ≡ K.faults file.old }
    ensures unopened { (IsDone result → ⊥) → result ≢ PrintEnding.Served Ending.SinkFault → file.new ≡ file.old }
{
    match desk.make_file(file) {
        Ok(()) => ending,
        Err(fault) => PrintEnding::Served(fault),
    }
}

/// The line of the counts: nothing where nothing was recorded.
pub fn counts_of(recorded: u32, tally: &Tally) -> OutputLine
    ensures { result ≡ counts_line recorded tally.now }
{
    if recorded == 0 {
        return Row::new();
    }
    run_line(1, tally.lines, tally.receipts, tally.refused, recorded)
}

/// Says how the lane ended: the line of its counts, and then the ending's. A lane that was refused has no counts. Answers
/// how the command ends.
pub fn tell<K: Sink>(ending: PrintEnding, counts: &OutputLine, out: &mut K) -> PrintEnding
    requires { HasNoCounts ending counts.now }
    ensures told { Told ending counts.now (K.written out.old) (K.written out.new)
        (K.faults out.old) (K.faults out.new) result }
    ensures later { K.faults out.old ≤ K.faults out.new }
{
    match ending {
        PrintEnding::NoHead => {
            say(&lane_fault_line(1, 1), out);
            ending
        }
        PrintEnding::NoEmployer => {
            say(&lane_fault_line(1, 2), out);
            ending
        }
        PrintEnding::Served(served) => PrintEnding::Served(conclude(served, counts, out)),
    }
}
