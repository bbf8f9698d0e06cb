//! `extract` over a rig.
ghost use Rattle.std.specs.Prelude.{◌≢◌, Some};
ghost use Rattle.rep_top.specs.Program.{NothingFailed, TellsFaults, outside};
ghost use Rattle.rep_top.specs.Commands.{IsExtractRig};
ghost use Rattle.rep_top.specs.Asking.{CanDo, Does, IsDone};

use rep_disk::Disk;
use rep_io::{Clock, Sink, Source};
use rep_query::extract;
use rep_words::{Asked, Outcome, Period, Rig};
use std::alloc::Global;

/// Runs `extract` over the rig.
pub(crate) fn extract_over<S: Source, K: Sink, D: Disk, C: Clock>(
    alloc: Global,
    period: Period,
    rig: Rig<S, K, D, C>,
) -> Outcome<S, K, D, C>
    requires rigged { IsExtractRig rig }
    ensures rigged { IsExtractRig result.rig }
    ensures does { Does (Asked.Extract (Some period)) (outside S.Source K.Sink D.Disk C.Clock) rig result.rig result.status }
    ensures told { TellsFaults (outside S.Source K.Sink D.Disk C.Clock) rig result.rig result.status }
    ensures complete { CanDo (Asked.Extract (Some period)) (outside S.Source K.Sink D.Disk C.Clock) rig → NothingFailed (outside S.Source K.Sink D.Disk C.Clock) rig result.rig
        → IsDone (Asked.Extract (Some period)) result.status }
    ensures on_grammar { result.status ≢ 2 }
{
    let Rig {
        mut texts,
        mut outs,
        disk,
        clock,
        out,
    } = rig;
    let Some(site) = texts.pop() else {
        unreachable!()
    };
    let Some(file) = outs.pop() else {
        unreachable!()
    };
    let Some(disk) = disk else { unreachable!() };
    let Some(clock) = clock else { unreachable!() };
    let done = extract(alloc, site, disk, clock, period.from, period.to, file, out);
    texts.push_reserved(done.site);
    outs.push_reserved(done.file);
    Outcome {
        rig: Rig {
            texts,
            outs,
            disk: Some(done.disk),
            clock: Some(done.clock),
            out: done.out,
        },
        status: done.status,
    }
}
