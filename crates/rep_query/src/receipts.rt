//! `receipt`.
ghost use Rattle.std.specs.Prelude.{◌≡◌, ◌≢◌, ◌⊎◌, ℕ, List, Some};
ghost use Rattle.rep_io.specs.Causes.{Rose};
ghost use Rattle.afd_records.specs.Record.{IsClocking, IsNsr};
ghost use Rattle.rep_wire.specs.declared.request.Entry.{Entry};
ghost use Rattle.rep_core.specs.History.{IsNumbered};
ghost use Rattle.rep_ledger.specs.Ledger.{IsLedgerOf};
ghost use Rattle.rep_site.specs.declared.site.Site.{Site};
ghost use Rattle.rep_run.specs.Settings.{SaysSite};
ghost use Rattle.rep_query.specs.Giving.{Answered};

use crate::finding::find;
use crate::no_clock::NoClock;
use crate::opening::open;
use crate::telling::answer;
use rep_disk::Disk;
use rep_io::{Sink, Source};
use rep_report::say;
use rep_run::last_line;
use std::alloc::Global;

/// What `receipt` hands back, and the status that the program ends with.
#[derive(Drop)]
pub struct ReceiptDone<S: Source, K: Sink, D: Disk> {
    pub site: S,
    pub disk: D,
    pub out: K,
    pub status: u8,
}

/// Writes the receipt of the clocking with a number, from 1 to 999,999,999, in the journal that stands on the disk, to `out`.
/// It is written under the employer's last record before the clocking, with the name of the worker's last record before it,
/// so it stays the same whatever is recorded later. The journal is only made sure of and read.
///
/// The status is 0; 3 where the site's text is no site's, the history has no such number (`FAULT|3|NOSUCHNSR`) or it is
/// another record's (`FAULT|3|NOTACLOCKING`); 4, 5 and 6 only where the source, `out` or the disk failed in this call; 8 for
/// want of memory; 9 where the disk is blank or foreign or the journal damaged; and 10 where the text is too long.
pub fn receipt<S: Source, K: Sink, D: Disk>(
    alloc: Global,
    site: S,
    disk: D,
    nsr: u32,
    out: K,
) -> ReceiptDone<S, K, D>
    requires nsr { IsNsr nsr }
    ensures answered { Answered (record { left = S.left; source_faults = S.faults; shown = D.shown }) nsr
        (record { site = site; disk = disk }) (record { site = result.site; disk = result.disk })
        (K.written out) (K.written result.out) (K.faults out) (K.faults result.out) result.status }
    ensures source_fault { result.status ≡ 4 → Rose (S.faults site) (S.faults result.site) }
    ensures sink_fault { result.status ≡ 5 → Rose (K.faults out) (K.faults result.out) }
    ensures device_fault { result.status ≡ 6 → Rose (D.shown disk).faults (D.shown result.disk).faults }
    ensures no_clock { result.status ≢ 7 }
    // No fault is passed over.
    ensures no_source_fault { result.status ≢ 4 → S.faults result.site ≡ S.faults site }
    ensures no_device_fault { result.status ≢ 6 → (D.shown result.disk).faults ≡ (D.shown disk).faults }
    // Where the text is a site's, the journal keeps a history with a clocking of this number and nothing of the outside
    // fails, its receipt is written, unless memory is short.
    ensures complete { (text contents : List ℕ) (said : Site) (h : List Entry) (e : Entry)
        → S.left site ≡ Some text → SaysSite text said → (D.shown disk).contents ≡ Some contents → IsLedgerOf contents h
        → IsNumbered h nsr e → IsClocking e.body
        → ¬ Rose (S.faults site) (S.faults result.site) → ¬ Rose (K.faults out) (K.faults result.out)
        → ¬ Rose (D.shown disk).faults (D.shown result.disk).faults
        → (result.status ≡ 0) ⊎ (result.status ≡ 8) }
{
    let mut site = site;
    let mut out = out;
    match open(alloc, &mut site, disk, NoClock::new()) {
        Ok(opened) => {
            let mut store = opened.store;
            let found = find(alloc, &mut store, &opened.site, nsr);
            let status = answer(found, nsr, &mut out);
            let (disk, _) = store.into_parts();
            ReceiptDone {
                site,
                disk,
                out,
                status,
            }
        }
        Err(closed) => {
            say(&last_line(closed.stopping), &mut out);
            ReceiptDone {
                site,
                disk: closed.disk,
                out,
                status: closed.stopping.status(),
            }
        }
    }
}
