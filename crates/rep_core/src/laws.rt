//! Laws of the definitions. Each function does nothing; what it ensures is the law.
ghost use Rattle.std.specs.Prelude.{◌≡◌, ℕ, ◌+◌, ◌≤◌, List, [], ◌∷◌, ◌++◌, length};
ghost use Rattle.rep_fields.specs.Moment.{Moment, IsMoment};
ghost use Rattle.afd_records.specs.Record.{last_nsr};
ghost use Rattle.afd_records.specs.declared.record.Body.{Body};
ghost use Rattle.rep_wire.specs.Request.{IsRequest, IsFounding};
ghost use Rattle.rep_wire.specs.declared.request.Request.{Request};
ghost use Rattle.rep_wire.specs.declared.request.Entry.{Entry};
ghost use Rattle.rep_core.specs.Chained.{next_line, history_lines};
ghost use Rattle.rep_core.specs.Links.{IsChained, HasLines};
ghost use Rattle.rep_core.specs.Verdict.{IsVerdict};
ghost use Rattle.rep_core.specs.Answered.{entry_of, recorded_after, slip_of};
ghost use Rattle.rep_core.specs.Valid.{Fits, IsValid, IsFounded};
ghost use Rattle.rep_core.specs.Core.{Kept, Stands};
ghost use Rattle.rep_core.specs.declared.verdict.Verdict.{Verdict};

use crate::verdict::Verdict;

/// A request has one verdict.
pub fn a_request_has_one_verdict()
    ensures { (limit : ℕ) (h : List Entry) (q : Request) (v w : Verdict)
        → IsVerdict limit h q v → IsVerdict limit h q w → v ≡ w }
{}

/// A request that is to be recorded is so under each greater limit.
pub fn a_greater_limit_refuses_no_more()
    ensures { (limit most : ℕ) (h : List Entry) (q : Request) → limit ≤ most
        → IsVerdict limit h q Verdict.Fresh → IsVerdict most h q Verdict.Fresh }
{}

/// Once it is recorded, a request is a repeat of the new entry, whatever the limit is then.
pub fn a_recorded_request_is_a_repeat()
    ensures { (limit later : ℕ) (h : List Entry) (q : Request) (now : Moment)
        → IsVerdict limit h q Verdict.Fresh
        → IsVerdict later (recorded_after h q now) q (Verdict.Repeat (length h + 1)) }
{}

/// One entry more is one line more, and the lines before stay.
pub fn an_entry_adds_its_line()
    ensures { (h : List Entry) (e : Entry)
        → history_lines (h ++ e ∷ []) ≡ history_lines h ++ next_line h e.body ∷ [] }
{}

/// There is a line for each entry, and it is that of the record with its number and, for a clocking, its hash.
pub fn each_entry_has_its_line()
    ensures { (h : List Entry) → HasLines h }
{}

/// The first clocking's hash is over its payload alone, and that of each other one over its payload and the hash of
/// the clocking before it.
pub fn clockings_are_chained()
    ensures { (h : List Entry) → IsChained h }
{}

/// The entry of a request that is to be recorded fits the history.
pub fn a_recorded_entry_fits()
    ensures { (h : List Entry) (q : Request) (now : Moment) → IsRequest q → IsMoment now
        → IsVerdict last_nsr h q Verdict.Fresh → Fits h (entry_of q now) }
{}

/// The empty history is valid, and a valid one stays so by an entry that fits.
pub fn recording_keeps_a_history_valid()
    ensures empty { IsValid [] }
    ensures more { (h : List Entry) (e : Entry) → IsValid h → Fits h e → IsValid (h ++ e ∷ []) }
{}

/// A site's employer record founds a history, and a founded one stays so by an entry that fits.
pub fn recording_keeps_a_history_founded()
    ensures first { (q : Request) (now : Moment) → IsFounding q → IsMoment now
        → IsFounded (recorded_after [] q now) }
    ensures more { (h : List Entry) (e : Entry) → IsFounded h → Fits h e → IsFounded (h ++ e ∷ []) }
{}

/// A receipt stays the same as the history grows.
pub fn a_receipt_stays_as_the_history_grows()
    ensures { (h more : List Entry) (nsr : ℕ) (body : Body) → nsr ≤ length h
        → slip_of (h ++ more) nsr body ≡ slip_of h nsr body }
{}

/// A core stands for one history.
pub fn a_core_stands_for_one_history()
    ensures { (kept : Kept) (h other : List Entry) → Stands kept h → Stands kept other → h ≡ other }
{}
