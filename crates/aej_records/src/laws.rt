//! Laws of the lines that are written.
ghost use Rattle.std.specs.Prelude.{◌≤◌, length, All};
ghost use Rattle.rep_fields.specs.Latin.{IsLatin};
ghost use Rattle.aej_records.specs.Line.{HasText, IsInRange};
ghost use Rattle.aej_records.specs.Text.{line_text, longest_written};
ghost use Rattle.aej_records.specs.declared.line.AejLine.{AejLine as TheLine};

/// What is written for a line has at most 381 bytes, each a printable character of ISO 8859-1: there is no line end
/// among them.
pub fn written_lines_are_lines()
    ensures short { (line : TheLine) → IsInRange line → length (line_text line) ≤ longest_written }
    ensures printable { (line : TheLine) → IsInRange line → All IsLatin (line_text line) }
{}

/// Each line that reads can be written.
pub fn read_lines_can_be_written()
    ensures { (line : TheLine) → IsInRange line → HasText line }
{}
