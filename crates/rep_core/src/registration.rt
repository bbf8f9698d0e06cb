ghost use Rattle.std.specs.Prelude.{◌↔◌, IsTrue};
ghost use Rattle.rep_core.specs.Verdict.{IsKnown, IsRegistered, MayBe};

use crate::verdict::WorkerState;
use afd_records::Op;
use rep_fields::Stamp;

/// Whether a clocking of the worker with this last registration record is taken. `mark` is the marked stamp of one
/// that was kept offline.
pub fn is_known(state: Option<WorkerState>, mark: Option<Stamp>) -> bool
    ensures { IsTrue result ↔ IsKnown state mark }
{
    let Some(last) = state else {
        return false;
    };
    match last.op {
        Op::Include | Op::Amend => true,
        Op::Exclude => match mark {
            None => false,
            Some(marked) => marked.instant_minute() <= last.at.instant_minute(),
        },
    }
}

/// Whether a registration record of this operation is taken.
pub fn may_be(op: Op, state: Option<WorkerState>) -> bool
    ensures { IsTrue result ↔ MayBe op state }
{
    match op {
        Op::Include => true,
        Op::Amend | Op::Exclude => is_known(state, None),
    }
}
