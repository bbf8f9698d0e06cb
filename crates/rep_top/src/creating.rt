//! `create` over a rig.
ghost use Rattle.std.specs.Prelude.{◌≢◌};
ghost use Rattle.rep_top.specs.Program.{NothingFailed, TellsFaults, outside};
ghost use Rattle.rep_top.specs.Commands.{IsCreateRig};
ghost use Rattle.rep_top.specs.Asking.{CanDo, Does, IsDone};

use rep_disk::Disk;
use rep_io::{Clock, Sink, Source};
use rep_run::create;
use rep_words::{Asked, Outcome, Rig};
use std::alloc::Global;

/// Runs `create` over the rig.
pub(crate) fn create_over<S: Source, K: Sink, D: Disk, C: Clock>(
    alloc: Global,
    rig: Rig<S, K, D, C>,
) -> Outcome<S, K, D, C>
    requires rigged { IsCreateRig rig }
    ensures rigged { IsCreateRig result.rig }
    ensures does { Does Asked.Create (outside S.Source K.Sink D.Disk C.Clock) rig result.rig result.status }
    ensures told { TellsFaults (outside S.Source K.Sink D.Disk C.Clock) rig result.rig result.status }
    ensures complete { CanDo Asked.Create (outside S.Source K.Sink D.Disk C.Clock) rig → NothingFailed (outside S.Source K.Sink D.Disk C.Clock) rig result.rig
        → IsDone Asked.Create result.status }
    ensures on_grammar { result.status ≢ 2 }
{
    let Rig {
        mut texts,
        outs,
        disk,
        clock,
        out,
    } = rig;
    let Some(site) = texts.pop() else {
        unreachable!()
    };
    let Some(disk) = disk else { unreachable!() };
    let Some(clock) = clock else { unreachable!() };
    let done = create(alloc, site, disk, clock, out);
    texts.push_reserved(done.source);
    Outcome {
        rig: Rig {
            texts,
            outs,
            disk: Some(done.disk),
            clock: Some(done.clock),
            out: done.out,
        },
        status: done.status,
    }
}
