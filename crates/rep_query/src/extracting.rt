//! `extract`.
ghost use Rattle.std.specs.Prelude.{◌≡◌, ◌≢◌, ◌⊎◌, ◌≤◌, ℕ, List, Some};
ghost use Rattle.rep_io.specs.Causes.{Rose};
ghost use Rattle.rep_wire.specs.declared.request.Entry.{Entry};
ghost use Rattle.rep_ledger.specs.Ledger.{IsLedgerOf};
ghost use Rattle.rep_site.specs.declared.site.Site.{Site};
ghost use Rattle.rep_report.specs.Saying.{SaysLine};
ghost use Rattle.rep_run.specs.Settings.{SaysSite};
ghost use Rattle.rep_query.specs.Extract.{Extracted, Meanings, Parts};
ghost use Rattle.rep_query.specs.Lines.{dates_fault};

use crate::lines::dates_line;
use crate::opening::open;
use crate::writing::write_out;
use rep_disk::Disk;
use rep_fields::Day;
use rep_io::{Clock, Sink, Source};
use rep_report::say;
use rep_run::last_line;
use std::alloc::Global;

/// What `extract` hands back, and the status that the program ends with.
#[derive(Drop)]
pub struct ExtractDone<S: Source, K: Sink, D: Disk, C: Clock> {
    pub site: S,
    pub disk: D,
    pub clock: C,
    pub file: K,
    pub out: K,
    pub status: u8,
}

/// Writes the AFD of a period, its first and last day included, out of the journal that stands on the disk, to `file`, and
/// then says `EXTRACT` on `out`, with the first and the last number that was written and how many bytes. The journal is only
/// made sure of and read.
///
/// The status is 0; 3 where the site's text is no site's; 4, 5, 6 and 7 only where the source, a sink, the disk or the clock
/// failed in this call; 8 for want of memory; 9 where the disk is blank or foreign or the journal damaged; and 10 where the
/// text is too long.
pub fn extract<S: Source, K: Sink, D: Disk, C: Clock>(
    alloc: Global,
    site: S,
    disk: D,
    clock: C,
    from: Day,
    to: Day,
    file: K,
    out: K,
) -> ExtractDone<S, K, D, C>
    ensures extracted { Extracted (record {
      left = S.left;
      source_faults = S.faults;
      shown = D.shown;
      readings = C.readings;
      clock_faults = C.faults;
      written = K.written;
      sink_faults = K.faults;
    }) from to
        (record { site = site; disk = disk; clock = clock; file = file })
        (record { site = result.site; disk = result.disk; clock = result.clock; file = result.file })
        (K.written out) (K.written result.out) (K.faults out) (K.faults result.out) result.status }
    ensures source_fault { result.status ≡ 4 → Rose (S.faults site) (S.faults result.site) }
    ensures sink_fault { result.status ≡ 5
        → Rose (K.faults file) (K.faults result.file) ⊎ Rose (K.faults out) (K.faults result.out) }
    ensures device_fault { result.status ≡ 6 → Rose (D.shown disk).faults (D.shown result.disk).faults }
    ensures clock_fault { result.status ≡ 7 → Rose (C.faults clock) (C.faults result.clock) }
    // No fault is passed over. One of `out` at the counts is told in the place of another.
    ensures no_source_fault { result.status ≢ 4 → result.status ≢ 5 → S.faults result.site ≡ S.faults site }
    ensures no_sink_fault { result.status ≢ 5 → K.faults result.file ≡ K.faults file }
    ensures no_device_fault { result.status ≢ 6 → result.status ≢ 5
        → (D.shown result.disk).faults ≡ (D.shown disk).faults }
    ensures no_clock_fault { result.status ≢ 7 → result.status ≢ 5 → C.faults result.clock ≡ C.faults clock }
    // Where the text is a site's, the journal keeps a history and nothing of the outside fails, all is done, unless memory is
    // short.
    ensures complete { (text contents : List ℕ) (said : Site) (h : List Entry) → S.left site ≡ Some text → SaysSite text said
        → (D.shown disk).contents ≡ Some contents → IsLedgerOf contents h
        → ¬ Rose (S.faults site) (S.faults result.site) → ¬ Rose (C.faults clock) (C.faults result.clock)
        → ¬ Rose (K.faults file) (K.faults result.file) → ¬ Rose (K.faults out) (K.faults result.out)
        → ¬ Rose (D.shown disk).faults (D.shown result.disk).faults
        → (result.status ≡ 0) ⊎ (result.status ≡ 8) }
{
    let mut site = site;
    let mut file = file;
    let mut out = out;
    match open(alloc, &mut site, disk, clock) {
        Ok(opened) => {
            let mut store = opened.store;
            let told = write_out(&mut store, from, to, &mut file, &mut out);
            let (disk, clock) = store.into_parts();
            ExtractDone {
                site,
                disk,
                clock,
                file,
                out,
                status: told.status(),
            }
        }
        Err(closed) => {
            say(&last_line(closed.stopping), &mut out);
            ExtractDone {
                site,
                disk: closed.disk,
                clock: closed.clock,
                file,
                out,
                status: closed.stopping.status(),
            }
        }
    }
}

/// Says on `out` that the words name no period, and answers the status.
pub fn refuse_dates<K: Sink>(out: &mut K) -> u8
    ensures status { result ≡ 3 }
    ensures says { SaysLine dates_fault (K.written out.old) (K.written out.new) (Rose (K.faults out.old) (K.faults out.new)) }
    ensures later { K.faults out.old ≤ K.faults out.new }
{
    say(&dates_line(), out);
    3
}
