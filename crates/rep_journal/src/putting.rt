//! What `create` and `put` write.
ghost use Rattle.std.specs.Prelude.{◌≡◌, ◌↔◌, ◌+◌, ◌≤◌, List, [], ◌∷◌, ◌++◌, length, OnErr, OnOk, MatchResult};
ghost use Rattle.rep_io.specs.Causes.{HasCause};
ghost use Rattle.rep_disk.specs.Disk.{Changes, IsAtRest, IsOwnImage, IsWithin, Moves, Torn, end_of_disk, written_by_name};
ghost use Rattle.rep_journal.specs.Format.{Framed, IsBlank, end_of};
ghost use Rattle.rep_journal.specs.State.{Becomes, CountsCalls, FailsToAppend, FailsToCreate, Leaves, MakesCalls, StandsFor};
ghost use Rattle.rep_journal.specs.Recovery.{Blanks, Creates, OpensGate, Puts};
ghost use Rattle.rep_journal.specs.Fields.{IsBlankBy, room_of_frame};
ghost use Rattle.rep_journal.specs.Putting.{CountsBlankCalls, NamesContents, NamesUntilSure, OpensUntilSure, calls_due, SameBehind, WritesSurely};

use crate::bytes::Stage;
use crate::format::{BLANK, FIRST_GATE, OPEN_GATE};
use crate::frame::Frame;
use rep_disk::Disk;
use rep_io::Failed;

/// Writes a piece and makes sure of it.
#[tactic(auto, using(crate::proofs::SureLemmas::opens_on, crate::proofs::SureLemmas::names_on, crate::proofs::SureLemmas::named_surely))]
pub(crate) fn write_and_sync<D: Disk>(disk: &mut D, at: u64, piece: &[u8]) -> Result<(), Failed>
    requires within { IsWithin at (D.shown disk.old).contents }
    requires end { at + length piece.now ≤ end_of_disk }
    requires room { length piece.now ≤ (D.shown disk.old).spare }
    ensures writes { WritesSurely at piece.now (D.shown disk.old) (D.shown disk.new) result }
    ensures rest { OnOk result (IsAtRest (D.shown disk.new)) }
    ensures spare { (D.shown disk.old).spare ≤ (D.shown disk.new).spare + length piece.now }
    ensures crash { Moves (Torn at (length piece.now)) (D.shown disk.old) (D.shown disk.new) }
    ensures opens { OpensUntilSure (Torn at (length piece.now)) (D.shown disk.old) (D.shown disk.new) result }
    ensures names { NamesUntilSure (written_by_name at piece.now) (D.shown disk.old) (D.shown disk.new) result }
    ensures named { OnOk result (NamesContents (D.shown disk.new)) }
    ensures own { IsOwnImage (D.shown disk.old) ↔ IsOwnImage (D.shown disk.new) }
    ensures cause { HasCause (D.shown disk.old).faults (D.shown disk.new).faults result }
{
    disk.write_at(at, piece)?;
    disk.sync()
}

/// Writes the frame behind the closed gate at `end`, and then opens that gate. Each of the two is made sure of.
pub(crate) fn append<D: Disk>(disk: &mut D, end: u64, frame: &Frame) -> Result<(), Failed>
    requires within { IsWithin (end + 1) (D.shown disk.old).contents }
    requires end { end + room_of_frame ≤ end_of_disk }
    requires room { room_of_frame ≤ (D.shown disk.old).spare }
    ensures contents { (frames : List Framed) → end ≡ end_of frames → StandsFor (D.shown disk.old).contents frames
        → OnOk result (Becomes (frames ++ frame.now ∷ []) (D.shown disk.old).contents (D.shown disk.new).contents) }
    ensures text { (frames : List Framed) → end ≡ end_of frames → StandsFor (D.shown disk.old).contents frames
        → OnOk result (Leaves (frames ++ frame.now ∷ []) (D.shown disk.old).contents (D.shown disk.new).contents) }
    ensures fails { (frames : List Framed) → end ≡ end_of frames → StandsFor (D.shown disk.old).contents frames
        → OnErr result (FailsToAppend frames frame.now (D.shown disk.old) (D.shown disk.new)) }
    ensures rest { OnOk result (IsAtRest (D.shown disk.new)) }
    ensures spare { (D.shown disk.old).spare ≤ (D.shown disk.new).spare + room_of_frame }
    ensures calls { CountsCalls 4 (D.shown disk.old) (D.shown disk.new) result }
    ensures crash { (frames : List Framed) → end ≡ end_of frames → StandsFor (D.shown disk.old).contents frames
        → IsAtRest (D.shown disk.old) → Puts frames frame.now (D.shown disk.old) (D.shown disk.new) }
    ensures at_gate { (frames : List Framed) → end ≡ end_of frames → StandsFor (D.shown disk.old).contents frames → MatchResult result
        (λ _. OpensGate frames frame.now (D.shown disk.old) (D.shown disk.new) ((D.shown disk.old).moment + 7))
        (λ _. OpensGate frames frame.now (D.shown disk.old) (D.shown disk.new) (D.shown disk.new).moment) }
    ensures own { IsOwnImage (D.shown disk.old) ↔ IsOwnImage (D.shown disk.new) }
    ensures cause { HasCause (D.shown disk.old).faults (D.shown disk.new).faults result }
{
    let stage = Stage::of(frame);
    write_and_sync(disk, end + 1, stage.bytes())?;
    write_and_sync(disk, end, &[OPEN_GATE])
}

/// Writes the magic and a closed gate over contents of at most 17 bytes, and makes sure of them. Where the contents
/// are longer, and so have both, it does nothing.
fn write_blank<D: Disk>(disk: &mut D, is_short: bool) -> Result<(), Failed>
    requires blank { IsBlankBy is_short (D.shown disk.old) }
    requires room { 17 ≤ (D.shown disk.old).spare }
    ensures contents { MatchResult result
        (λ _. Becomes [] (D.shown disk.old).contents (D.shown disk.new).contents)
        (λ _. Changes (λ _ bytes. IsBlank bytes) (D.shown disk.old).contents (D.shown disk.new).contents) }
    ensures behind { OnOk result (Changes SameBehind (D.shown disk.old).contents (D.shown disk.new).contents) }
    ensures rest { IsAtRest (D.shown disk.old) → OnOk result (IsAtRest (D.shown disk.new)) }
    ensures spare { (D.shown disk.old).spare ≤ (D.shown disk.new).spare + 17 }
    ensures calls { CountsBlankCalls is_short (D.shown disk.old) (D.shown disk.new) result }
    ensures crash { Blanks (D.shown disk.old) (D.shown disk.new) }
    ensures own { IsOwnImage (D.shown disk.old) ↔ IsOwnImage (D.shown disk.new) }
    ensures cause { HasCause (D.shown disk.old).faults (D.shown disk.new).faults result }
{
    if is_short {
        write_and_sync(disk, 0, &BLANK)
    } else {
        Ok(())
    }
}

/// Writes the magic and a closed gate, where that is still to be done, and then the first frame.
pub(crate) fn begin<D: Disk>(disk: &mut D, is_short: bool, first: &Frame) -> Result<(), Failed>
    requires blank { IsBlankBy is_short (D.shown disk.old) }
    requires room { 17 + room_of_frame ≤ (D.shown disk.old).spare }
    ensures contents { OnOk result (Becomes (first.now ∷ []) (D.shown disk.old).contents (D.shown disk.new).contents) }
    ensures text { OnOk result (Leaves (first.now ∷ []) (D.shown disk.old).contents (D.shown disk.new).contents) }
    ensures rest { OnOk result (IsAtRest (D.shown disk.new)) }
    ensures calls { OnOk result (MakesCalls (calls_due is_short) (D.shown disk.old) (D.shown disk.new)) }
    ensures fails { OnErr result (FailsToCreate (calls_due is_short) first.now (D.shown disk.old) (D.shown disk.new)) }
    ensures crash { Creates first.now (D.shown disk.old) (D.shown disk.new) }
    ensures own { IsOwnImage (D.shown disk.old) ↔ IsOwnImage (D.shown disk.new) }
    ensures cause { HasCause (D.shown disk.old).faults (D.shown disk.new).faults result }
{
    write_blank(disk, is_short)?;
    append(disk, FIRST_GATE, first)
}
