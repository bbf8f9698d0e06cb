//! `run`.
ghost use Rattle.std.specs.Prelude.{◌≡◌, ◌≢◌, ◌⊎◌, ℕ, List, Some};
ghost use Rattle.rep_io.specs.Causes.{Rose};
ghost use Rattle.rep_run.specs.Running.{IsServable, Meanings, Parts, Ran};

use crate::serving::serve;
use crate::stopping::{last_line, no_store};
use crate::texts::read_texts;
use rep_disk::Disk;
use rep_io::{Clock, Sink, Source};
use rep_lane::lines_of;
use rep_report::say;
use rep_store::Store;
use std::alloc::Global;

/// What `run` hands back, and the status that the program ends with.
#[derive(Drop)]
pub struct RunDone<S: Source, K: Sink, D: Disk, C: Clock> {
    pub site: S,
    pub lane: S,
    pub disk: D,
    pub clock: C,
    pub replies: K,
    pub out: K,
    pub status: u8,
}

/// Serves a lane over the journal that stands on the disk: its lines are answered one after another, each over the history
/// that those before it left, and their replies are written to `replies`. A receipt's entry is sure on the disk when the call
/// ends. Then the line of the counts is said on `out`, and the line of a fault.
///
/// The status is 0, or 1 where a request was refused; 3 where the site's text is no site's or the lane has no head; 4, 5, 6
/// and 7 only where a source, a sink, the disk or the clock failed in this call; 8 for want of memory; 9 where the disk is
/// blank or foreign or the journal damaged; and 10 where a text is too long.
pub fn run<S: Source, K: Sink, D: Disk, C: Clock>(
    alloc: Global,
    site: S,
    lane: S,
    disk: D,
    clock: C,
    replies: K,
    out: K,
) -> RunDone<S, K, D, C>
    ensures ran { Ran (record {
      left = S.left;
      source_faults = S.faults;
      shown = D.shown;
      readings = C.readings;
      clock_faults = C.faults;
      written = K.written;
      sink_faults = K.faults;
    })
        (record { site = site; lane = lane; disk = disk; clock = clock; replies = replies })
        (record { site = result.site; lane = result.lane; disk = result.disk; clock = result.clock; replies = result.replies })
        (K.written out) (K.written result.out) (K.faults out) (K.faults result.out) result.status }
    ensures source_fault { result.status ≡ 4
        → Rose (S.faults site) (S.faults result.site) ⊎ Rose (S.faults lane) (S.faults result.lane) }
    ensures sink_fault { result.status ≡ 5
        → Rose (K.faults replies) (K.faults result.replies) ⊎ Rose (K.faults out) (K.faults result.out) }
    ensures device_fault { result.status ≡ 6 → Rose (D.shown disk).faults (D.shown result.disk).faults }
    ensures clock_fault { result.status ≡ 7 → Rose (C.faults clock) (C.faults result.clock) }
    // No fault is passed over. One of `out` at the counts is told in the place of another.
    ensures no_source_fault { result.status ≢ 4 → result.status ≢ 5
        → (S.faults result.site ≡ S.faults site) × (S.faults result.lane ≡ S.faults lane) }
    ensures no_sink_fault { result.status ≢ 5 → K.faults result.replies ≡ K.faults replies }
    ensures no_device_fault { result.status ≢ 6 → result.status ≢ 5
        → (D.shown result.disk).faults ≡ (D.shown disk).faults }
    ensures no_clock_fault { result.status ≢ 7 → result.status ≢ 5 → C.faults result.clock ≡ C.faults clock }
    // Where nothing is refused as a whole and nothing of the outside fails, every line is answered, unless memory is short.
    ensures complete { (site_text lane_text contents : List ℕ) → S.left site ≡ Some site_text → S.left lane ≡ Some lane_text
        → (D.shown disk).contents ≡ Some contents → IsServable site_text lane_text contents
        → ¬ Rose (S.faults site) (S.faults result.site) → ¬ Rose (S.faults lane) (S.faults result.lane)
        → ¬ Rose (K.faults replies) (K.faults result.replies) → ¬ Rose (K.faults out) (K.faults result.out)
        → ¬ Rose (D.shown disk).faults (D.shown result.disk).faults → ¬ Rose (C.faults clock) (C.faults result.clock)
        → (result.status ≡ 0) ⊎ (result.status ≡ 1) ⊎ (result.status ≡ 8) }
{
    let mut site = site;
    let mut out = out;
    let mut lines = lines_of(lane);
    let texts = match read_texts(alloc, &mut site, &mut lines) {
        Ok(texts) => texts,
        Err(stopping) => {
            say(&last_line(stopping), &mut out);
            return RunDone {
                site,
                lane: lines.into_source(),
                disk,
                clock,
                replies,
                out,
                status: stopping.status(),
            };
        }
    };
    match Store::reopen(alloc, &texts.site, disk, clock) {
        Ok(store) => {
            let served = serve(&texts.head, lines, store, replies, &mut out);
            RunDone {
                site,
                lane: served.lane,
                disk: served.disk,
                clock: served.clock,
                replies: served.replies,
                out,
                status: served.told.status(),
            }
        }
        Err(none) => {
            let stopping = no_store(none.why);
            say(&last_line(stopping), &mut out);
            RunDone {
                site,
                lane: lines.into_source(),
                disk: none.disk,
                clock: none.clock,
                replies,
                out,
                status: stopping.status(),
            }
        }
    }
}
