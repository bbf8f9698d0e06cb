//! `create`.
ghost use Rattle.std.specs.Prelude.{◌≡◌, ◌≢◌, ◌⊎◌, ◌↔◌, ◌≤◌, ℕ, List, IfSome, IsTrue, Some};
ghost use Rattle.rep_io.specs.Causes.{Rose};
ghost use Rattle.rep_disk.specs.Disk.{IsAtRest};
ghost use Rattle.rep_journal.specs.Format.{IsBlank};
ghost use Rattle.rep_site.specs.declared.site.Site.{Site};
ghost use Rattle.rep_run.specs.Settings.{SaysSite};
ghost use Rattle.rep_report.specs.declared.ending.Ending.{Ending};
ghost use Rattle.rep_run.specs.declared.stopping.Stopping.{Stopping};
ghost use Rattle.rep_run.specs.Creating.{CrashesSafely, Created, Creates, Meanings, Parts, SaysMade};
ghost use Rattle.rep_run.specs.Steps.{IsMadeOrFails};

use crate::settings::read_site;
use crate::stopping::{Stopping, last_line, no_store};
use rep_disk::Disk;
use rep_io::{Clock, Sink, Source};
use rep_report::{Ending, conclude, created_line, say};
use rep_store::Store;
use std::alloc::Global;

/// What `create` hands back, and the status that the program ends with.
#[derive(Drop)]
pub struct CreateDone<S: Source, K: Sink, D: Disk, C: Clock> {
    pub source: S,
    pub disk: D,
    pub clock: C,
    pub out: K,
    pub status: u8,
}

/// Makes the journal of the site whose text the source gives, on a blank disk, and says `CREATED|1` on `out`. Its one entry
/// is the site's employer record, recorded at a reading of the clock.
///
/// The status is 0; 3 where the text is no site's; 4, 5, 6 and 7 only where the source, `out`, the disk or the clock failed
/// in this call; 8 for want of memory; 9 where the disk isn't blank; and 10 where the text is too long.
pub fn create<S: Source, K: Sink, D: Disk, C: Clock>(
    alloc: Global,
    source: S,
    disk: D,
    clock: C,
    out: K,
) -> CreateDone<S, K, D, C>
    ensures created { Created (record { left = S.left; source_faults = S.faults; shown = D.shown; readings = C.readings; clock_faults = C.faults })
        (record { source = source; disk = disk; clock = clock })
        (record { source = result.source; disk = result.disk; clock = result.clock })
        (K.written out) (K.written result.out) (K.faults out) (K.faults result.out) result.status }
    ensures source_fault { result.status ≡ 4 → Rose (S.faults source) (S.faults result.source) }
    ensures sink_fault { result.status ≡ 5 → Rose (K.faults out) (K.faults result.out) }
    ensures device_fault { result.status ≡ 6 → Rose (D.shown disk).faults (D.shown result.disk).faults }
    ensures clock_fault { result.status ≡ 7 → Rose (C.faults clock) (C.faults result.clock) }
    // No fault is passed over.
    ensures no_source_fault { result.status ≢ 4 → S.faults result.source ≡ S.faults source }
    ensures no_device_fault { result.status ≢ 6 → (D.shown result.disk).faults ≡ (D.shown disk).faults }
    ensures no_clock_fault { result.status ≢ 7 → C.faults result.clock ≡ C.faults clock }
    // A crash in this call leaves a blank disk, or the journal with its one entry.
    ensures safe { IsAtRest (D.shown disk) → IfSome (D.shown disk).contents IsBlank
        → CrashesSafely (record { left = S.left; source_faults = S.faults; shown = D.shown; readings = C.readings; clock_faults = C.faults })
        (record { source = source; disk = disk; clock = clock })
        (record { source = result.source; disk = result.disk; clock = result.clock }) }
    // Where the text is a site's, the disk blank and nothing of the outside fails, the journal is made, unless memory is
    // short.
    ensures complete { (text contents : List ℕ) (site : Site) → S.left source ≡ Some text → SaysSite text site
        → (D.shown disk).contents ≡ Some contents → IsBlank contents
        → ¬ Rose (S.faults source) (S.faults result.source) → ¬ Rose (C.faults clock) (C.faults result.clock)
        → ¬ Rose (K.faults out) (K.faults result.out) → ¬ Rose (D.shown disk).faults (D.shown result.disk).faults
        → (result.status ≡ 0) ⊎ (result.status ≡ 8) }
{
    let mut source = source;
    let mut out = out;
    let made = make(alloc, &mut source, disk, clock);
    let stopping = say_made(made.stopping, &mut out);
    CreateDone {
        source,
        disk: made.disk,
        clock: made.clock,
        out,
        status: stopping.status(),
    }
}

// A disk and a clock, and how making a journal stopped.
#[derive(Drop)]
struct Made<D: Disk, C: Clock> {
    disk: D,
    clock: C,
    stopping: Stopping,
}

// Reads the site, and makes its journal.
fn make<S: Source, D: Disk, C: Clock>(
    alloc: Global,
    source: &mut S,
    disk: D,
    clock: C,
) -> Made<D, C>
    ensures creates { Creates (record { left = S.left; source_faults = S.faults; shown = D.shown; readings = C.readings; clock_faults = C.faults })
        (record { source = source.old; disk = disk; clock = clock })
        (record { source = source.new; disk = result.disk; clock = result.clock }) result.stopping }
    ensures unsaid { ¬ (result.stopping ≡ Stopping.Ended Ending.SinkFault) }
    ensures safe { IsAtRest (D.shown disk) → IfSome (D.shown disk).contents IsBlank
        → CrashesSafely (record { left = S.left; source_faults = S.faults; shown = D.shown; readings = C.readings; clock_faults = C.faults })
        (record { source = source.old; disk = disk; clock = clock })
        (record { source = source.new; disk = result.disk; clock = result.clock }) }
    ensures source_later { S.faults source.old ≤ S.faults source.new }
    // No fault is passed over.
    ensures no_source_fault { result.stopping ≢ Stopping.Ended Ending.SourceFault
        → S.faults source.new ≡ S.faults source.old }
    ensures no_device_fault { result.stopping ≢ Stopping.Ended Ending.DeviceFault
        → (D.shown result.disk).faults ≡ (D.shown disk).faults }
    ensures no_clock_fault { result.stopping ≢ Stopping.Ended Ending.ClockFault → C.faults result.clock ≡ C.faults clock }
    ensures found { (text : List ℕ) (site : Site) → S.left source.old ≡ Some text → SaysSite text site
        → IfSome (D.shown disk).contents (λ bytes. IsBlank bytes → IsMadeOrFails result.stopping) }
{
    let site = match read_site(alloc, source) {
        Ok(site) => site,
        Err(stopping) => {
            return Made {
                disk,
                clock,
                stopping,
            };
        }
    };
    match Store::create(alloc, &site, disk, clock) {
        Ok(store) => {
            let (disk, clock) = store.into_parts();
            Made {
                disk,
                clock,
                stopping: Stopping::Ended(Ending::AllAnswered),
            }
        }
        Err(none) => Made {
            disk: none.disk,
            clock: none.clock,
            stopping: no_store(none.why),
        },
    }
}

// Says that the journal was made, where it was, and then the last line. Where the output fails at the first, the command
// ends by that fault. Answers how it stops.
fn say_made<K: Sink>(stopping: Stopping, out: &mut K) -> Stopping
    requires { ¬ (stopping ≡ Stopping.Ended Ending.SinkFault) }
    ensures says { SaysMade result (K.written out.old) (K.written out.new) (K.faults out.old) (K.faults out.new) }
    ensures told { (result ≡ stopping)
        ⊎ ((stopping ≡ Stopping.Ended Ending.AllAnswered) × (result ≡ Stopping.Ended Ending.SinkFault)) }
    ensures later { K.faults out.old ≤ K.faults out.new }
{
    if is_made(stopping) {
        return Stopping::Ended(conclude(Ending::AllAnswered, &created_line(), out));
    }
    say(&last_line(stopping), out);
    stopping
}

// Whether the journal was made.
fn is_made(stopping: Stopping) -> bool
    ensures { IsTrue result ↔ (stopping ≡ Stopping.Ended Ending.AllAnswered) }
{
    match stopping {
        Stopping::Ended(Ending::AllAnswered) => true,
        Stopping::Ended(
            Ending::SomeRefused
            | Ending::SourceFault
            | Ending::SinkFault
            | Ending::DeviceFault
            | Ending::ClockFault
            | Ending::OutOfMemory
            | Ending::InputLimit,
        )
        | Stopping::Refused(_) => false,
    }
}
