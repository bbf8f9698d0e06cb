//! `receipt` over a rig.
ghost use Rattle.std.specs.Prelude.{◌≢◌};
ghost use Rattle.afd_records.specs.Record.{IsNsr};
ghost use Rattle.rep_top.specs.Program.{NothingFailed, TellsFaults, outside};
ghost use Rattle.rep_top.specs.Commands.{IsReceiptRig};
ghost use Rattle.rep_top.specs.Asking.{CanDo, Does, IsDone};

use rep_disk::Disk;
use rep_io::{Clock, Sink, Source};
use rep_query::receipt;
use rep_words::{Asked, Outcome, Rig};
use std::alloc::Global;

/// Runs `receipt` over the rig.
pub(crate) fn receipt_over<S: Source, K: Sink, D: Disk, C: Clock>(
    alloc: Global,
    nsr: u32,
    rig: Rig<S, K, D, C>,
) -> Outcome<S, K, D, C>
    requires nsr { IsNsr nsr }
    requires rigged { IsReceiptRig rig }
    ensures rigged { IsReceiptRig result.rig }
    ensures does { Does (Asked.Receipt nsr) (outside S.Source K.Sink D.Disk C.Clock) rig result.rig result.status }
    ensures told { TellsFaults (outside S.Source K.Sink D.Disk C.Clock) rig result.rig result.status }
    ensures complete { CanDo (Asked.Receipt nsr) (outside S.Source K.Sink D.Disk C.Clock) rig → NothingFailed (outside S.Source K.Sink D.Disk C.Clock) rig result.rig
        → IsDone (Asked.Receipt nsr) result.status }
    ensures on_grammar { result.status ≢ 2 }
{
    let Rig {
        mut texts,
        outs,
        disk,
        clock,
        out,
    } = rig;
    let Some(site) = texts.pop() else {
        unreachable!()
    };
    let Some(disk) = disk else { unreachable!() };
    let done = receipt(alloc, site, disk, nsr, out);
    texts.push_reserved(done.site);
    Outcome {
        rig: Rig {
            texts,
            outs,
            disk: Some(done.disk),
            clock,
            out: done.out,
        },
        status: done.status,
    }
}
