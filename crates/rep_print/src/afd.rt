//! The head of the AFD of the recorder's history.
ghost use Rattle.std.specs.Prelude.{◌≡◌, ℕ, ◌≤◌, List, [], ◌∷◌, ◌++◌, length, min, max, ℤ};
ghost use Rattle.rep_fields.specs.Moment.{moment_at};
ghost use Rattle.afd_records.specs.File.{HasHeadText};
ghost use Rattle.rep_wire.specs.declared.request.Entry.{Entry};
ghost use Rattle.rep_core.specs.Core.{Stands};
ghost use Rattle.rep_print.specs.Afd.{IsAskedHead};
ghost use Rattle.rep_print.specs.FileSteps.{IsSpan};
ghost use Rattle.rep_print.specs.Writing.{HasEmployer};

use afd_records::{Body, Head, recorded};
use rep_core::Core;
use rep_fields::{Day, RepNumber, Stamp, Text};
use rep_wire::Entry;

/// The first and the last day on which something was recorded.
#[derive(Clone, Copy)]
pub(crate) struct Span {
    pub(crate) first: Day,
    pub(crate) last: Day,
}

/// The first and the last recording day of the history.
pub(crate) fn span_of(core: &Core) -> Span
    requires some { (h : List Entry) → Stands core.now h → 1 ≤ length h }
    ensures { (h : List Entry) → Stands core.now h → IsSpan h result.first result.last }
{
    let count = core.count();
    let mut span = first_span(core.entry(1));
    let mut nsr = 1;
    while nsr < count {
        nsr += 1;
        add_entry(&mut span, core.entry(nsr));
    }
    span
}

// That of one entry.
fn first_span(entry: &Entry) -> Span
    ensures { IsSpan (entry.now ∷ []) result.first result.last }
{
    let day = recorded(&entry.body).day();
    Span {
        first: day,
        last: day,
    }
}

// Adds the recording day of an entry.
fn add_entry(span: &mut Span, entry: &Entry)
    ensures { (h : List Entry) → IsSpan h span.old.first span.old.last
        → IsSpan (h ++ entry.now ∷ []) span.new.first span.new.last }
{
    let day = recorded(&entry.body).day();
    span.first = earlier(span.first, day);
    span.last = later(span.last, day);
}

// The earlier of two days.
fn earlier(one: Day, other: Day) -> Day
    ensures { result ≡ min one other }
{
    if other < one { other } else { one }
}

// The later of two days.
fn later(one: Day, other: Day) -> Day
    ensures { result ≡ max one other }
{
    if one < other { other } else { one }
}

/// The head of the AFD of the history, which has an employer, with these dates and this stamp.
pub(crate) fn head_of(core: &Core, first: Day, last: Day, made: Stamp) -> Head
    requires employer { (h : List Entry) → Stands core.now h → HasEmployer h }
    ensures head { (h : List Entry) (zone : ℤ) (minute : ℕ) → Stands core.now h
        → made ≡ moment_at minute zone → IsAskedHead zone h first last minute result }
    ensures text { HasHeadText result }
{
    let Some(nsr) = core.employer() else {
        unreachable!();
    };
    let entry = core.entry(nsr);
    let Body::Employer { id, cno, name, .. } = &entry.body else {
        unreachable!();
    };
    Head {
        id: *id,
        cno: *cno,
        name: *name,
        rep: RepNumber { text: [b'0'; 17] },
        first,
        last,
        made,
        dev_kind: 1,
        dev: [b'0'; 14],
        model: Text::empty(),
    }
}
