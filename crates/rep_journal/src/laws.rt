//! Laws of the layout. Each function does nothing; what it ensures is the law.
ghost use Rattle.std.specs.Prelude.{◌≡◌, ℕ, List};
ghost use Rattle.rep_journal.specs.Format.{Framed, IsJournalOf, Kind, IsOfKind};

/// Contents are a journal of one list of frames.
pub fn contents_tell_the_frames()
    ensures { (bytes : List ℕ) (some others : List Framed) → IsJournalOf bytes some → IsJournalOf bytes others → some ≡ others }
{}

/// Any contents are blank, foreign, damaged at one place or a journal of one list of frames, and just one of these.
pub fn contents_are_of_one_kind()
    ensures some { (bytes : List ℕ) → (kind : Kind) × IsOfKind bytes kind }
    ensures one { (bytes : List ℕ) (kind other : Kind) → IsOfKind bytes kind → IsOfKind bytes other → kind ≡ other }
{}
