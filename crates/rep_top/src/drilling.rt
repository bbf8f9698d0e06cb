//! `drill` over a rig.
ghost use Rattle.std.specs.Prelude.{◌≢◌};
ghost use Rattle.rep_top.specs.Program.{NothingFailed, TellsFaults, outside};
ghost use Rattle.rep_top.specs.Commands.{IsDrillRig};
ghost use Rattle.rep_top.specs.Asking.{CanDo, Does, IsDone};

use rep_disk::Disk;
use rep_drill::drill;
use rep_io::{Clock, Sink, Source};
use rep_words::{Asked, Outcome, Rig};
use std::alloc::Global;

/// Runs `drill` over the rig.
pub(crate) fn drill_over<S: Source, K: Sink, D: Disk, C: Clock>(
    alloc: Global,
    rig: Rig<S, K, D, C>,
) -> Outcome<S, K, D, C>
    requires rigged { IsDrillRig rig }
    ensures rigged { IsDrillRig result.rig }
    ensures does { Does Asked.Drill (outside S.Source K.Sink D.Disk C.Clock) rig result.rig result.status }
    ensures told { TellsFaults (outside S.Source K.Sink D.Disk C.Clock) rig result.rig result.status }
    ensures complete { CanDo Asked.Drill (outside S.Source K.Sink D.Disk C.Clock) rig → NothingFailed (outside S.Source K.Sink D.Disk C.Clock) rig result.rig
        → IsDone Asked.Drill result.status }
    ensures on_grammar { result.status ≢ 2 }
{
    let Rig {
        mut texts,
        outs,
        disk,
        clock,
        out,
    } = rig;
    let Some(schedule) = texts.pop() else {
        unreachable!()
    };
    let done = drill(alloc, schedule, out);
    texts.push_reserved(done.schedule);
    Outcome {
        rig: Rig {
            texts,
            outs,
            disk,
            clock,
            out: done.out,
        },
        status: done.status,
    }
}
