//! A receipt on the output, or why there is none.
ghost use Rattle.std.specs.Prelude.{◌≡◌, ◌≤◌, IfOk, IfErr};
ghost use Rattle.rep_io.specs.Causes.{Rose};
ghost use Rattle.rep_report.specs.Saying.{Concludes};
ghost use Rattle.rep_report.specs.declared.ending.Ending.{Ending};
ghost use Rattle.rep_query.specs.Receipt.{SaysNone, SaysReceipt, none_text};

use crate::finding::NoReceipt;
use crate::lines::{no_such_nsr_line, not_a_clocking_line};
use rep_io::{Sink, put_all};
use rep_report::{Ending, OutputLine, fault_line, say};

/// Says the receipt that was found, or why there is none, and answers the status.
pub fn answer<K: Sink>(found: Result<Vec<u8>, NoReceipt>, nsr: u32, out: &mut K) -> u8
    ensures receipt { IfOk found (λ text. SaysReceipt text.items (K.written out.old) (K.written out.new)
        (K.faults out.old) (K.faults out.new) result) }
    ensures none { IfErr found (λ why. SaysNone why nsr (K.written out.old) (K.written out.new)
        (Rose (K.faults out.old) (K.faults out.new)) result) }
    ensures later { K.faults out.old ≤ K.faults out.new }
{
    match found {
        Ok(text) => give(&text, out).status(),
        Err(why) => {
            say(&none_line(why, nsr), out);
            why.status()
        }
    }
}

// Writes a receipt, and where the output fails at it, tries to say so. Answers how the command ends.
fn give<K: Sink>(text: &[u8], out: &mut K) -> Ending
    ensures gives { Concludes Ending.AllAnswered text.now (K.written out.old) (K.written out.new)
        (K.faults out.old) (K.faults out.new) result }
    ensures later { K.faults out.old ≤ K.faults out.new }
{
    match put_all(out, text) {
        Ok(()) => Ending::AllAnswered,
        Err(_) => {
            say(&fault_line(Ending::SinkFault.status()), out);
            Ending::SinkFault
        }
    }
}

// The line that says why there is no receipt.
fn none_line(why: NoReceipt, nsr: u32) -> OutputLine
    ensures { result ≡ none_text why nsr }
{
    match why {
        NoReceipt::NoSuchNsr => no_such_nsr_line(nsr),
        NoReceipt::NotAClocking => not_a_clocking_line(nsr),
        NoReceipt::DeviceFault | NoReceipt::OutOfMemory => fault_line(why.status()),
    }
}
