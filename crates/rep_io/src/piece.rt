ghost use Rattle.std.specs.Prelude.{◌≡◌, ◌↔◌, ◌≤◌, IsSome, IfSome, length};

use std::marker::Model;

/// The most bytes that a line may have, its end not counted.
pub const LONGEST_LINE: usize = 512;

/// A list of at most `LONGEST_LINE` bytes that holds them itself: it takes no memory, and a copy costs little.
#[derive(Clone, Copy)]
pub struct Piece {
    // zero from `len` on
    cells: [u8; LONGEST_LINE],
    len: usize,
}

impl Model for Piece {
    ghost use Rattle.std.specs.Prelude.{ℕ, List, length, take, ◌++◌, ◌-◌, replicate};
    ghost use Rattle.rep_io.specs.Piece.{IsPadded, length_of-cells, cells_of-bytes};

    ghost Value = { List ℕ };

    ghost view = { λ p. take p.len p.cells };

    ghost invariant = { λ p. IsPadded p.cells p.len };

    ghost inverse = { λ bytes. record {
      cells = bytes ++ replicate (512 - length bytes) 0;
      len = length bytes;
    } };

    ghost inverse_ok = { λ p h i. record {
      cells = cells_of-bytes p.cells p.len h i;
      len = length_of-cells p.cells p.len h i;
    } };
}

impl Piece {
    /// These bytes, of which there may be at most `LONGEST_LINE`.
    pub fn make(bytes: &[u8]) -> Option<Piece>
        ensures fits { IsSome result ↔ (length bytes.now ≤ LONGEST_LINE) }
        ensures value { IfSome result (λ piece. piece ≡ bytes.now) }
    {
        let len = bytes.len();
        if len > LONGEST_LINE {
            return None;
        }
        let mut cells = [0; LONGEST_LINE];
        cells[..len].copy_from_slice(bytes);
        Some(Piece { cells, len })
    }

    /// The bytes.
    pub fn bytes(&self) -> &[u8]
        ensures value { result.now ≡ self.now }
        ensures within { length result.now ≤ LONGEST_LINE }
    {
        &self.cells[..self.len]
    }
}
