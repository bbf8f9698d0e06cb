//! `print` over a rig.
ghost use Rattle.std.specs.Prelude.{◌≢◌};
ghost use Rattle.rep_fields.specs.Moment.{IsOffset};
ghost use Rattle.rep_top.specs.Program.{NothingFailed, TellsFaults, outside};
ghost use Rattle.rep_top.specs.Commands.{IsPrintRig};
ghost use Rattle.rep_top.specs.Asking.{CanDo, Does, IsDone};

use rep_disk::Disk;
use rep_io::{Clock, Sink, Source};
use rep_print::print;
use rep_words::{Asked, Outcome, Rig};
use std::alloc::Global;

/// Runs `print` over the rig. `zone` is how far the recorder's clock is ahead of UTC, in minutes.
pub(crate) fn print_over<S: Source, K: Sink, D: Disk, C: Clock>(
    alloc: Global,
    zone: i16,
    rig: Rig<S, K, D, C>,
) -> Outcome<S, K, D, C>
    requires zone { IsOffset zone }
    requires rigged { IsPrintRig rig }
    ensures rigged { IsPrintRig result.rig }
    ensures does { Does (Asked.Print zone) (outside S.Source K.Sink D.Disk C.Clock) rig result.rig result.status }
    ensures told { TellsFaults (outside S.Source K.Sink D.Disk C.Clock) rig result.rig result.status }
    ensures complete { CanDo (Asked.Print zone) (outside S.Source K.Sink D.Disk C.Clock) rig → NothingFailed (outside S.Source K.Sink D.Disk C.Clock) rig result.rig
        → IsDone (Asked.Print zone) result.status }
    ensures on_grammar { result.status ≢ 2 }
{
    let Rig {
        mut texts,
        mut outs,
        disk,
        clock,
        out,
    } = rig;
    let Some(source) = texts.pop() else {
        unreachable!()
    };
    let Some(file) = outs.pop() else {
        unreachable!()
    };
    let Some(clock) = clock else { unreachable!() };
    let done = print(alloc, zone, source, file, clock, out);
    texts.push_reserved(done.source);
    outs.push_reserved(done.file);
    Outcome {
        rig: Rig {
            texts,
            outs,
            disk,
            clock: Some(done.clock),
            out: done.out,
        },
        status: done.status,
    }
}
