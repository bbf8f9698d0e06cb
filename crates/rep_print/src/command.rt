//! The command.
ghost use Rattle.std.specs.Prelude.{◌≡◌, ◌≢◌, ◌⊎◌, ℕ, List, Some};
ghost use Rattle.rep_io.specs.Causes.{Rose};
ghost use Rattle.rep_fields.specs.Moment.{IsOffset};
ghost use Rattle.rep_print.specs.Printing.{IsPrintable};
ghost use Rattle.rep_print.specs.Written.{Printed};

use crate::closing::{close, counts_of, tell};
use crate::desk::PrintDesk;
use crate::lane::serve;
use rep_io::{Clock, Sink, Source};
use rep_lane::lines_of;
use std::alloc::Global;

/// What `print` hands back, and the status that the program ends with.
#[derive(Drop)]
pub struct PrintDone<S: Source, K: Sink, C: Clock> {
    pub source: S,
    pub file: K,
    pub clock: C,
    pub out: K,
    pub status: u8,
}

/// Serves the lines of the lane one after another over an empty history, writes their replies to `out`, and the AFD of the
/// whole history to `file`, made at one more reading of the clock. Behind the replies `out` gets the line of the counts
/// where line 2 was answered, and the line of a fault. A line that orders an extraction has its AFD on `out`, behind its
/// reply. `zone` is how far the recorder's clock is ahead of UTC, in minutes.
///
/// The status is 0, or 1 where a request was refused; 3 where the first line isn't an operator's head, or line 2 isn't an
/// employer's request; 4, 5 and 7 only where the source, a sink or the clock failed in this call; 8 for want of memory; and
/// 10 where the text is too long. No AFD is begun but where every line was answered.
pub fn print<S: Source, K: Sink, C: Clock>(
    alloc: Global,
    zone: i16,
    source: S,
    file: K,
    clock: C,
    out: K,
) -> PrintDone<S, K, C>
    requires { IsOffset zone }
    ensures printed { Printed S.left K.written C.readings K.faults zone result.status source file out clock
        result.file result.out result.clock }
    ensures source_fault { result.status ≡ 4 → Rose (S.faults source) (S.faults result.source) }
    ensures sink_fault { result.status ≡ 5
        → Rose (K.faults file) (K.faults result.file) ⊎ Rose (K.faults out) (K.faults result.out) }
    ensures clock_fault { result.status ≡ 7 → Rose (C.faults clock) (C.faults result.clock) }
    // No fault is passed over. One of `out` at the counts is told in the place of another.
    ensures no_source_fault { result.status ≢ 4 → result.status ≢ 5 → S.faults result.source ≡ S.faults source }
    ensures no_file_fault { result.status ≢ 5 → K.faults result.file ≡ K.faults file }
    ensures no_clock_fault { result.status ≢ 7 → result.status ≢ 5 → C.faults result.clock ≡ C.faults clock }
    // Where no AFD is written, its file isn't opened.
    ensures unopened { result.status ≢ 0 → result.status ≢ 1 → result.status ≢ 5 → result.file ≡ file }
    // Where the lane is refused, the clock isn't asked.
    ensures unread { result.status ≡ 3 → result.clock ≡ clock }
    ensures statuses { (result.status ≢ 2) × (result.status ≢ 6) × (result.status ≢ 9) }
    // Where nothing of the lane is refused as a whole and nothing of the outside fails, the AFD is made, unless memory is
    // short.
    ensures complete { (text : List ℕ) → S.left source ≡ Some text → IsPrintable text
        → ¬ Rose (S.faults source) (S.faults result.source) → ¬ Rose (C.faults clock) (C.faults result.clock)
        → ¬ Rose (K.faults file) (K.faults result.file) → ¬ Rose (K.faults out) (K.faults result.out)
        → (result.status ≡ 0) ⊎ (result.status ≡ 1) ⊎ (result.status ≡ 8) }
{
    let mut desk = PrintDesk::new(alloc, zone, clock);
    let lane = serve(lines_of(source), out, &mut desk);
    let mut file = file;
    let ending = close(lane.ending, &mut desk, &mut file);
    let mut out = lane.out;
    let told = tell(ending, &counts_of(desk.count(), &lane.tally), &mut out);
    PrintDone {
        source: lane.lines.into_source(),
        file,
        clock: desk.into_clock(),
        out,
        status: told.status(),
    }
}
