//! A lane served over a store.
ghost use Rattle.std.specs.Prelude.{◌≡◌, ◌≢◌, ◌≤◌};
ghost use Rattle.rep_wire.specs.LaneGrammar.{IsLaneHead};
ghost use Rattle.rep_report.specs.declared.ending.Ending.{Ending};
ghost use Rattle.rep_lane.specs.declared.lane.End.{End};
ghost use Rattle.rep_run.specs.Serving.{ServesStore, ending_after};

use crate::desk::StoreDesk;
use rep_disk::Disk;
use rep_io::{Clock, Lines, Sink, Source};
use rep_lane::{End, FIRST_LINE};
use rep_report::{Ending, conclude, run_line};
use rep_store::Store;
use rep_wire::LaneHead;

/// What is left of a lane, a store and a sink, and how the command ends.
#[derive(Drop)]
pub struct Served<S: Source, K: Sink, D: Disk, C: Clock> {
    pub lane: S,
    pub disk: D,
    pub clock: C,
    pub replies: K,
    pub told: Ending,
}

/// Answers the lines of a lane behind its head over a store that hasn't stopped, and says how the command ends.
pub fn serve<S: Source, K: Sink, D: Disk, C: Clock>(
    head: &LaneHead,
    lines: Lines<S>,
    store: Store<D, C>,
    replies: K,
    out: &mut K,
) -> Served<S, K, D, C>
    requires head { IsLaneHead head.now }
    ensures serves { ServesStore (record {
      left = S.left;
      source_faults = S.faults;
      shown = D.shown;
      readings = C.readings;
      clock_faults = C.faults;
      written = K.written;
      sink_faults = K.faults;
    })
        head.now lines store replies
        (record { lane = result.lane; disk = result.disk; clock = result.clock; replies = result.replies })
        (K.written out.old) (K.written out.new) (K.faults out.old) (K.faults out.new) result.told }
    ensures out_later { K.faults out.old ≤ K.faults out.new }
    // No fault is passed over. One of `out` at the counts is told in the place of another.
    ensures no_source_fault { result.told ≢ Ending.SourceFault → result.told ≢ Ending.SinkFault
        → S.faults result.lane ≡ S.faults lines.source }
    ensures no_sink_fault { result.told ≢ Ending.SinkFault → K.faults result.replies ≡ K.faults replies }
    ensures no_device_fault { result.told ≢ Ending.DeviceFault → result.told ≢ Ending.SinkFault
        → (D.shown result.disk).faults ≡ (D.shown store.disk).faults }
    ensures no_clock_fault { result.told ≢ Ending.ClockFault → result.told ≢ Ending.SinkFault
        → C.faults result.clock ≡ C.faults store.clock }
{
    let mut desk = StoreDesk { store };
    let done = rep_lane::run(head, FIRST_LINE, lines, replies, &mut desk);
    let due = ending_of(done.end, done.tally.refused);
    let counts = run_line(
        1,
        done.tally.lines,
        done.tally.receipts,
        done.tally.refused,
        desk.store.count(),
    );
    let told = conclude(due, &counts, out);
    let StoreDesk { store } = desk;
    let (disk, clock) = store.into_parts();
    Served {
        lane: done.lines.into_source(),
        disk,
        clock,
        replies: done.sink,
        told,
    }
}

// How the command ends, by how the lane did and by how many requests were refused.
fn ending_of(end: End, refused: u64) -> Ending
    ensures { result ≡ ending_after end refused }
{
    match end {
        End::Done => {
            if refused > 0 {
                Ending::SomeRefused
            } else {
                Ending::AllAnswered
            }
        }
        End::SourceFault => Ending::SourceFault,
        End::InputLimit => Ending::InputLimit,
        End::SinkFault => Ending::SinkFault,
        End::Stopped | End::DeviceFault => Ending::DeviceFault,
        End::ClockFault => Ending::ClockFault,
        End::OutOfMemory => Ending::OutOfMemory,
    }
}
