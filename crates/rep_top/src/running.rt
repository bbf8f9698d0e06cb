//! `run` over a rig.
ghost use Rattle.std.specs.Prelude.{◌≢◌};
ghost use Rattle.rep_top.specs.Program.{NothingFailed, TellsFaults, outside};
ghost use Rattle.rep_top.specs.Commands.{IsRunRig};
ghost use Rattle.rep_top.specs.Asking.{CanDo, Does, IsDone};

use rep_disk::Disk;
use rep_io::{Clock, Sink, Source};
use rep_run::run;
use rep_words::{Asked, Outcome, Rig};
use std::alloc::Global;

/// Runs `run` over the rig.
pub(crate) fn run_over<S: Source, K: Sink, D: Disk, C: Clock>(
    alloc: Global,
    rig: Rig<S, K, D, C>,
) -> Outcome<S, K, D, C>
    requires rigged { IsRunRig rig }
    ensures rigged { IsRunRig result.rig }
    ensures does { Does Asked.Run (outside S.Source K.Sink D.Disk C.Clock) rig result.rig result.status }
    ensures told { TellsFaults (outside S.Source K.Sink D.Disk C.Clock) rig result.rig result.status }
    ensures complete { CanDo Asked.Run (outside S.Source K.Sink D.Disk C.Clock) rig → NothingFailed (outside S.Source K.Sink D.Disk C.Clock) rig result.rig
        → IsDone Asked.Run result.status }
    ensures on_grammar { result.status ≢ 2 }
{
    let Rig {
        mut texts,
        mut outs,
        disk,
        clock,
        out,
    } = rig;
    let Some(lane) = texts.pop() else {
        unreachable!()
    };
    let Some(site) = texts.pop() else {
        unreachable!()
    };
    let Some(replies) = outs.pop() else {
        unreachable!()
    };
    let Some(disk) = disk else { unreachable!() };
    let Some(clock) = clock else { unreachable!() };
    let done = run(alloc, site, lane, disk, clock, replies, out);
    texts.push_reserved(done.site);
    texts.push_reserved(done.lane);
    outs.push_reserved(done.replies);
    Outcome {
        rig: Rig {
            texts,
            outs,
            disk: Some(done.disk),
            clock: Some(done.clock),
            out: done.out,
        },
        status: done.status,
    }
}
