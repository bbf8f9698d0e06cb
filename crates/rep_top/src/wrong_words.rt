//! Words that are those of no command, and dates that name no period.
ghost use Rattle.std.specs.Prelude.{◌≡◌, ◌≢◌, None};
ghost use Rattle.rep_top.specs.Program.{NothingFailed, Refuses, TellsFaults, outside};
ghost use Rattle.rep_top.specs.Commands.{IsExtractRig};
ghost use Rattle.rep_top.specs.Asking.{CanDo, Does, IsDone};

use rep_disk::Disk;
use rep_io::{Clock, Sink, Source};
use rep_query::refuse_dates;
use rep_report::{fault_line, say};
use rep_words::{Asked, Outcome, Rig};

/// The status where the words are those of no command.
const WRONG_WORDS: u8 = 2;

/// Answers that the words are those of no command.
pub(crate) fn refuse<S: Source, K: Sink, D: Disk, C: Clock>(
    mut rig: Rig<S, K, D, C>,
) -> Outcome<S, K, D, C>
    ensures status { result.status ≡ 2 }
    ensures refuses { Refuses (outside S.Source K.Sink D.Disk C.Clock) rig result.rig }
{
    say(&fault_line(WRONG_WORDS), &mut rig.out);
    Outcome {
        rig,
        status: WRONG_WORDS,
    }
}

/// Answers that the words name no period.
pub(crate) fn refuse_period<S: Source, K: Sink, D: Disk, C: Clock>(
    mut rig: Rig<S, K, D, C>,
) -> Outcome<S, K, D, C>
    requires rigged { IsExtractRig rig }
    ensures rigged { IsExtractRig result.rig }
    ensures does { Does (Asked.Extract None) (outside S.Source K.Sink D.Disk C.Clock) rig result.rig result.status }
    ensures told { TellsFaults (outside S.Source K.Sink D.Disk C.Clock) rig result.rig result.status }
    ensures complete { CanDo (Asked.Extract None) (outside S.Source K.Sink D.Disk C.Clock) rig → NothingFailed (outside S.Source K.Sink D.Disk C.Clock) rig result.rig
        → IsDone (Asked.Extract None) result.status }
    ensures on_grammar { result.status ≢ 2 }
{
    let status = refuse_dates(&mut rig.out);
    Outcome { rig, status }
}
