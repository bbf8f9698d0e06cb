//! Laws of the lenient grammar.
ghost use Rattle.std.specs.Prelude.{◌≡◌, ◌↔◌, ℕ, List, Option, All, IsTrue, false};
ghost use Rattle.rep_fields.specs.Digits.{IsDigitByte};
ghost use Rattle.afd_records.specs.File.{HasHeadText, head_text};
ghost use Rattle.afd_records.specs.Lenient.{IsLooseLineOf};
ghost use Rattle.afd_records.specs.LenientHead.{IsLooseHead, IsLooseHeadOf};
ghost use Rattle.afd_records.specs.Line.{IsLineOf};
ghost use Rattle.afd_records.specs.Reading.{no_notes};
ghost use Rattle.afd_records.specs.declared.error.Notes.{Notes as TheNotes};
ghost use Rattle.afd_records.specs.declared.header.Head.{Head as TheHead};
ghost use Rattle.afd_records.specs.declared.record.Body.{Body as TheBody};

use crate::header::Head;

/// A line that a strict reader takes is one of the lenient grammar, with the same values and no note, and the line of a
/// head is one of that head, with no note but of the recorder's number.
pub fn what_is_written_reads_leniently()
    ensures records { (nsr : ℕ) (body : TheBody) (hash : Option (List ℕ)) (line : List ℕ) → IsLineOf nsr body hash line
        → IsLooseLineOf nsr body hash no_notes line }
    ensures heads { (head : TheHead) (notes : TheNotes) → IsLooseHead head → HasHeadText head
        → notes.crc ≡ false → notes.stamp ≡ false → (IsTrue notes.rep ↔ (All IsDigitByte head.rep → ⊥))
        → IsLooseHeadOf head notes (head_text head) }
{}

/// A head that has a text is in its range, since its types keep their parts so.
pub fn printed_heads_are_in_range(head: &Head)
    requires { HasHeadText head.now }
    ensures { IsLooseHead head.now }
{
    let _ = head.name.bytes();
    let _ = head.rep.bytes();
    let _ = head.first.write();
    let _ = head.last.write();
    let _ = head.made.write();
    let _ = head.model.bytes();
}
