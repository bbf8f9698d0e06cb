//! Laws of the definitions. Each function does nothing; what it ensures is the law.
ghost use Rattle.std.specs.Prelude.{◌≡◌, ◌≤◌, ◌++◌, ℕ, ℤ, List, length};
ghost use Rattle.rep_fields.specs.Moment.{IsOffset};
ghost use Rattle.afd_records.specs.Record.{last_nsr};
ghost use Rattle.rep_wire.specs.declared.head.LaneHead.{LaneHead};
ghost use Rattle.rep_wire.specs.declared.request.Entry.{Entry};
ghost use Rattle.rep_core.specs.Valid.{IsFounded, IsValid};
ghost use Rattle.rep_lane.specs.Answers.{LineAnswer};
ghost use Rattle.rep_lane.specs.Serving.{rules_of, ServesLines};
ghost use Rattle.rep_lane.specs.Fronts.{AreFrontReplies};

/// What an extraction over a history is, as the laws speak of it: of whatever recorder.
pub trait Extraction {
    /// The history, the first and the last day, the reading of the clock, the size that is told, and the AFD.
    ghost extraction: { List Entry → ℕ → ℕ → ℕ → ℕ → List ℕ → Type 0 };
}

/// The replies to lines that are served one after another are those over the first entries of the history that they leave,
/// as many as each front says, and so is each extraction. The fronts don't fall and are at most the length of that history,
/// and a receipt's number is at most its front.
pub fn served_lines_have_the_replies_of_their_fronts<X: Extraction>()
    ensures { (limit : ℕ) (offset : ℤ) (head : LaneHead) (h : List Entry) (lines : List (List ℕ)) (given : List ℕ)
        (answers : List LineAnswer) (after : List Entry)
        → ServesLines (rules_of limit offset X.extraction) head h lines given answers after
        → AreFrontReplies (rules_of limit offset X.extraction) head (length h) after lines answers }
{}

/// Lines that are served only add entries to the history.
pub fn serving_lines_adds_entries<X: Extraction>()
    ensures { (limit : ℕ) (offset : ℤ) (head : LaneHead) (h : List Entry) (lines : List (List ℕ)) (given : List ℕ)
        (answers : List LineAnswer) (after : List Entry)
        → ServesLines (rules_of limit offset X.extraction) head h lines given answers after
        → (added : List Entry) × (after ≡ h ++ added) }
{}

/// A valid history stays valid by lines that are served, and one that a site's employer record founds stays so.
pub fn serving_lines_keeps_a_history_sound<X: Extraction>()
    ensures valid { (limit : ℕ) (offset : ℤ) (head : LaneHead) (h : List Entry) (lines : List (List ℕ)) (given : List ℕ)
        (answers : List LineAnswer) (after : List Entry) → limit ≤ last_nsr → IsOffset offset
        → ServesLines (rules_of limit offset X.extraction) head h lines given answers after → IsValid h → IsValid after }
    ensures founded { (limit : ℕ) (offset : ℤ) (head : LaneHead) (h : List Entry) (lines : List (List ℕ)) (given : List ℕ)
        (answers : List LineAnswer) (after : List Entry) → limit ≤ last_nsr → IsOffset offset
        → ServesLines (rules_of limit offset X.extraction) head h lines given answers after → IsFounded h → IsFounded after }
{}
