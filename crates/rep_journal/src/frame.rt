ghost use Rattle.std.specs.Prelude.{◌≡◌, ◌↔◌, length, IfSome, IsSome, IsTrue};
ghost use Rattle.rep_journal.specs.Format.{IsFrame, IsLineLength};

use crate::format::LONGEST_LINE;
use std::marker::Model;

/// A line of the AFD, without CR LF, and who asked for it by which number.
#[derive(Drop)]
pub struct Frame {
    origin: u16,
    seq: u64,
    // the line, and then zeros
    cells: [u8; LONGEST_LINE],
    size: usize,
}

impl Model for Frame {
    ghost use Rattle.rep_journal.specs.Format.{Framed};
    ghost use Rattle.rep_journal.specs.Fields.{framed, IsKeptFrame};

    ghost Value = { Framed };

    ghost view = { λ f. framed f.origin f.seq f.cells f.size };

    ghost invariant = { λ f. IsKeptFrame f.origin f.seq f.cells f.size };
}

/// Whether a record line of the AFD has this length.
pub(crate) fn is_line_length(size: usize) -> bool
    ensures { IsTrue result ↔ IsLineLength size }
{
    size == 36 || size == 73 || size == 118 || size == 137 || size == 331
}

impl Frame {
    /// A frame. `None` exactly where the line has none of the lengths 36, 73, 118, 137 and 331 of the AFD's record
    /// lines.
    pub fn make(origin: u16, seq: u64, line: &[u8]) -> Option<Frame>
        ensures made { IfSome result (λ f. f ≡ record { origin = origin; seq = seq; line = line.now }) }
        ensures succeeds { IsSome result ↔ IsLineLength (length line.now) }
    {
        if !is_line_length(line.len()) {
            return None;
        }
        let mut cells = [0; LONGEST_LINE];
        cells[..line.len()].copy_from_slice(line);
        Some(Frame {
            origin,
            seq,
            cells,
            size: line.len(),
        })
    }

    /// Who asked: the number of a collector's or an operator's lane.
    pub fn origin(&self) -> u16
        ensures { result ≡ self.now.origin }
    {
        self.origin
    }

    /// By which number it was asked.
    pub fn seq(&self) -> u64
        ensures { result ≡ self.now.seq }
    {
        self.seq
    }

    /// The line's bytes.
    pub fn line(&self) -> &[u8]
        ensures line { result.now ≡ self.now.line }
        ensures well_formed { IsFrame self.now }
    {
        &self.cells[..self.size]
    }

    /// The same frame once more.
    pub(crate) fn copy(&self) -> Frame
        ensures same { result ≡ self.now }
        ensures well_formed { IsFrame self.now }
    {
        Frame {
            origin: self.origin,
            seq: self.seq,
            cells: self.cells,
            size: self.size,
        }
    }
}
