//! A lane's text, line by line.
ghost use Rattle.std.specs.Prelude.{◌≡◌, ◌≢◌, ◌+◌, ◌≤◌, ℕ, List, [], Some};
ghost use Rattle.rep_io.specs.Causes.{Rose};
ghost use Rattle.rep_io.specs.Lines.{longest_text};
ghost use Rattle.rep_io.specs.Cutter.{IsAtLimit, IsOver, fresh};
ghost use Rattle.rep_io.specs.Next.{Advances};
ghost use Rattle.rep_lane.specs.LaneText.{HasRead, Comes};

use rep_io::{Lines, Next, Source};

/// A lane of which no line was read.
pub fn lines_of<S: Source>(source: S) -> Lines<S>
    ensures value { result ≡ fresh source }
    ensures none { (text : List ℕ) → S.left source ≡ Some text → HasRead S.left result text [] }
{
    Lines::new(source)
}

/// The line behind those that were read, and what it is to the lines of the whole text.
pub fn next_line<S: Source>(lines: &mut Lines<S>) -> Next
    ensures comes { (text : List ℕ) (before : List (List ℕ)) → HasRead S.left lines.old text before
        → Comes S.left lines.new result text before }
    ensures advances { Advances lines.old lines.new result }
    ensures within { lines.new.taken ≤ longest_text + 1 }
    ensures over { result ≡ Next.End → IsOver lines.new }
    ensures limit { result ≡ Next.InputLimit → IsAtLimit lines.new }
    ensures later { S.faults lines.old.source ≤ S.faults lines.new.source }
    ensures source_fault { result ≡ Next.SourceFault
        → Rose (S.faults lines.old.source) (S.faults lines.new.source) }
    ensures no_fault { result ≢ Next.SourceFault → S.faults lines.new.source ≡ S.faults lines.old.source }
{
    lines.next()
}
