ghost use Rattle.std.specs.Prelude.{◌≡◌, ◌≢◌, map, string_bytes};
ghost use Rattle.rep_words.specs.Words.{Asks, IsOnGrammar};
ghost use Rattle.rep_top.specs.Program.{IsRiggedFor, NothingFailed, Refuses, TellsFaults, outside};
ghost use Rattle.rep_top.specs.Asking.{CanDo, Does, IsAskable, IsDone};

use crate::creating::create_over;
use crate::drilling::drill_over;
use crate::extracting::extract_over;
use crate::giving::receipt_over;
use crate::printing::print_over;
use crate::running::run_over;
use crate::wrong_words::{refuse, refuse_period};
use rep_disk::Disk;
use rep_io::{Clock, Sink, Source};
use rep_words::{Asked, Outcome, Rig, asked_of};
use std::alloc::Global;

/// Does what the words ask for, over the rig, and answers the status that the program ends with. The rig has just the texts,
/// files, disk and clock that the command works on.
pub fn top<S: Source, K: Sink, D: Disk, C: Clock>(
    alloc: Global,
    words: &[String],
    rig: Rig<S, K, D, C>,
) -> Outcome<S, K, D, C>
    requires rigged { (asked : Asked) → Asks (map string_bytes words.now) asked → IsRiggedFor asked rig }
    ensures rigged { (asked : Asked) → Asks (map string_bytes words.now) asked → IsRiggedFor asked result.rig }

    // Words that are those of no command are told, and nothing else is touched.
    ensures off_grammar { ¬ IsOnGrammar (map string_bytes words.now) → result.status ≡ 2 }
    ensures only_off_grammar { result.status ≡ 2 → ¬ IsOnGrammar (map string_bytes words.now) }
    ensures untouched { ¬ IsOnGrammar (map string_bytes words.now) → Refuses (outside S.Source K.Sink D.Disk C.Clock) rig result.rig }

    // What the words ask for is done.
    ensures does { (asked : Asked) → Asks (map string_bytes words.now) asked
        → Does asked (outside S.Source K.Sink D.Disk C.Clock) rig result.rig result.status }

    // A fault of the outside is told only where that object's count rose in this call.
    ensures told { TellsFaults (outside S.Source K.Sink D.Disk C.Clock) rig result.rig result.status }

    // Where nothing is refused as a whole and nothing of the outside fails, all is done, unless memory is short.
    ensures complete { (asked : Asked) → Asks (map string_bytes words.now) asked
        → CanDo asked (outside S.Source K.Sink D.Disk C.Clock) rig → NothingFailed (outside S.Source K.Sink D.Disk C.Clock) rig result.rig
        → IsDone asked result.status }
{
    match asked_of(words) {
        Some(asked) => do_asked(alloc, asked, rig),
        None => refuse(rig),
    }
}

/// Does what is asked, over the rig.
fn do_asked<S: Source, K: Sink, D: Disk, C: Clock>(
    alloc: Global,
    asked: Asked,
    rig: Rig<S, K, D, C>,
) -> Outcome<S, K, D, C>
    requires askable { IsAskable asked }
    requires rigged { IsRiggedFor asked rig }
    ensures rigged { IsRiggedFor asked result.rig }
    ensures does { Does asked (outside S.Source K.Sink D.Disk C.Clock) rig result.rig result.status }
    ensures told { TellsFaults (outside S.Source K.Sink D.Disk C.Clock) rig result.rig result.status }
    ensures complete { CanDo asked (outside S.Source K.Sink D.Disk C.Clock) rig → NothingFailed (outside S.Source K.Sink D.Disk C.Clock) rig result.rig → IsDone asked result.status }
    ensures on_grammar { result.status ≢ 2 }
{
    match asked {
        Asked::Print { zone } => print_over(alloc, zone, rig),
        Asked::Create => create_over(alloc, rig),
        Asked::Run => run_over(alloc, rig),
        Asked::Extract {
            period: Some(period),
        } => extract_over(alloc, period, rig),
        Asked::Extract { period: None } => refuse_period(rig),
        Asked::Receipt { nsr } => receipt_over(alloc, nsr, rig),
        Asked::Drill => drill_over(alloc, rig),
    }
}
