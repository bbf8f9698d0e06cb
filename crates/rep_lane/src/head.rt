//! The first line of a lane.
ghost use Rattle.std.specs.Prelude.{◌≡◌, ◌≢◌, ◌≤◌, ℕ, List, [], Err, IfOk};
ghost use Rattle.rep_io.specs.Causes.{Rose};
ghost use Rattle.rep_io.specs.Cutter.{IsAtLimit};
ghost use Rattle.rep_wire.specs.LaneGrammar.{IsLaneHead};
ghost use Rattle.rep_lane.specs.LaneText.{HasRead};
ghost use Rattle.rep_lane.specs.Head.{Heads};

use crate::reading::next_line;
use rep_io::{Lines, Next, Source};
use rep_wire::{LaneHead, read_lane_head};

/// Why a lane has no head.
#[derive(Clone, Copy, Debug, PartialEq, Eq)]
pub enum NoHead {
    /// There is no first line, or it is no head.
    OffGrammar,
    SourceFault,
    /// The text has more bytes than a text may have, and its first line ends past them.
    InputLimit,
}

/// The head of a lane, which is its first line. No line may have been read before.
///
/// # Errors
///
/// `OffGrammar` where there is no first line or it is no head, `SourceFault` exactly where the source failed in this call,
/// `InputLimit` where the text is too long and its first line ends past what a text may have.
pub fn read_head<S: Source>(lines: &mut Lines<S>) -> Result<LaneHead, NoHead>
    ensures heads { (text : List ℕ) → HasRead S.left lines.old text []
        → Heads S.left lines.new text result }
    ensures in_range { IfOk result IsLaneHead }
    ensures limit { result ≡ Err NoHead.InputLimit → IsAtLimit lines.new }
    ensures later { S.faults lines.old.source ≤ S.faults lines.new.source }
    ensures source_fault { result ≡ Err NoHead.SourceFault
        → Rose (S.faults lines.old.source) (S.faults lines.new.source) }
    ensures no_fault { result ≢ Err NoHead.SourceFault → S.faults lines.new.source ≡ S.faults lines.old.source }
{
    match next_line(lines) {
        Next::Line { bytes, crlf: _ } => match read_lane_head(bytes.bytes()) {
            Some(head) => Ok(head),
            None => Err(NoHead::OffGrammar),
        },
        Next::TooLong => Err(NoHead::OffGrammar),
        Next::End => Err(NoHead::OffGrammar),
        Next::SourceFault => Err(NoHead::SourceFault),
        Next::InputLimit => Err(NoHead::InputLimit),
    }
}
