//! The frame of an entry.
ghost use Rattle.std.specs.Prelude.{◌≡◌, ◌<◌, ◌⊎◌, List, length};
ghost use Rattle.rep_fields.specs.Moment.{IsMoment};
ghost use Rattle.afd_records.specs.Record.{last_nsr};
ghost use Rattle.rep_wire.specs.Request.{IsFounding, IsRequest};
ghost use Rattle.rep_wire.specs.declared.request.Entry.{Entry};
ghost use Rattle.rep_core.specs.Core.{Stands};
ghost use Rattle.rep_core.specs.Answered.{entry_of};
ghost use Rattle.rep_ledger.specs.Ledger.{next_frame};

use rep_core::Core;
use rep_fields::Stamp;
use rep_journal::Frame;
use rep_wire::{Request, made};

/// The frame of the entry that a request becomes when it is recorded at a stamp behind the core's history.
pub fn frame_of(core: &Core, q: &Request, now: Stamp) -> Frame
    requires asked { IsRequest q.now ⊎ IsFounding q.now }
    requires stamp { IsMoment now }
    requires number { (h : List Entry) → Stands core.now h → length h < last_nsr }
    ensures { (h : List Entry) → Stands core.now h → result ≡ next_frame h (entry_of q.now now) }
{
    let body = made(q, now);
    let line = core.line(&body);
    let Some(frame) = Frame::make(q.origin, q.seq, line.bytes()) else {
        unreachable!()
    };
    frame
}
