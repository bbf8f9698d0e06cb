//! Laws of the definitions. Each function does nothing; what it ensures is the law.
ghost use Rattle.std.specs.Prelude.{◌≡◌, ◌≤◌, ℕ, List, ◌++◌, All};
ghost use Rattle.rep_wire.specs.declared.request.Entry.{Entry};
ghost use Rattle.rep_ledger.specs.Ledger.{Content, Contains, IsLedgerOf};
ghost use Rattle.rep_ledger.specs.Safety.{IsFrontOf, Receipted, Secures};

use rep_disk::Disk;

/// Contents keep one history.
pub fn contents_tell_the_history(bytes: &[u8])
    ensures { (h others : List Entry) → IsLedgerOf bytes.now h → IsLedgerOf bytes.now others → h ≡ others }
{}

/// Any contents are blank, foreign, damaged at one place or keep one history, and just one of these: no contents are none
/// of them.
pub fn contents_are_of_one_kind(bytes: &[u8])
    ensures some { ((content : Content) → Contains bytes.now content → ⊥) → ⊥ }
    ensures one { (content other : Content) → Contains bytes.now content → Contains bytes.now other → content ≡ other }
{}

/// What calls leave secure stays so by further calls that begin where the first have ended. The three are one disk as it
/// stands before the first calls, between and behind.
pub fn safety_goes_on<D: Disk>(start: &D, between: &D, end: &D)
    ensures { (rested : ℕ) (first kept whole : List Entry) (before after : List Receipted)
        → rested ≤ (D.shown between.now).moment → (D.shown start.now).moment ≤ (D.shown between.now).moment
        → All (λ r. r.moment ≤ (D.shown between.now).moment) before
        → IsFrontOf first kept → IsFrontOf kept whole
        → Secures rested first kept before (D.shown start.now) (D.shown between.now)
        → Secures (D.shown between.now).moment kept whole after (D.shown between.now) (D.shown end.now)
        → Secures rested first whole (before ++ after) (D.shown start.now) (D.shown end.now) }
{}
