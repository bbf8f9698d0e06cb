//! The AFD of a period out of a store.
ghost use Rattle.std.specs.Prelude.{◌≡◌, ◌≢◌, ◌≤◌, None};
ghost use Rattle.rep_report.specs.declared.ending.Ending.{Ending};
ghost use Rattle.rep_query.specs.Writing.{WritesOut, ending_of};

use crate::lines::extracted_line;
use rep_disk::Disk;
use rep_fields::{Day, Row};
use rep_io::{Clock, Sink};
use rep_report::{Ending, conclude};
use rep_store::{ExtractFail, Store};

/// Writes the AFD of a period to `file`, and says so on `out`; answers how the command ends.
pub fn write_out<K: Sink, D: Disk, C: Clock>(
    store: &mut Store<D, C>,
    from: Day,
    to: Day,
    file: &mut K,
    out: &mut K,
) -> Ending
    requires { store.old.stopped ≡ None }
    ensures writes { WritesOut D.shown C.readings C.faults K.written K.faults from to store.old store.new file.old file.new
        (K.written out.old) (K.written out.new) (K.faults out.old) (K.faults out.new) result }
    ensures file_later { K.faults file.old ≤ K.faults file.new }
    ensures out_later { K.faults out.old ≤ K.faults out.new }
    // No fault is passed over. One of `out` at the line is told in the place of another.
    ensures no_file_fault { result ≢ Ending.SinkFault → K.faults file.new ≡ K.faults file.old }
    ensures no_device_fault { result ≢ Ending.DeviceFault → result ≢ Ending.SinkFault
        → (D.shown store.new.disk).faults ≡ (D.shown store.old.disk).faults }
    ensures no_clock_fault { result ≢ Ending.ClockFault → result ≢ Ending.SinkFault
        → C.faults store.new.clock ≡ C.faults store.old.clock }
{
    let range = store.period(from, to);
    match store.extract(None, from, to, file) {
        Ok(size) => conclude(Ending::AllAnswered, &extracted_line(range, size), out),
        Err(why) => conclude(ending_of(why), &Row::new(), out),
    }
}

// How a command ends where an extraction isn't whole.
fn ending_of(why: ExtractFail) -> Ending
    ensures { result ≡ ending_of why }
{
    match why {
        ExtractFail::Stopped { .. } | ExtractFail::DeviceFault => Ending::DeviceFault,
        ExtractFail::ClockFault => Ending::ClockFault,
        ExtractFail::SinkFault => Ending::SinkFault,
    }
}
