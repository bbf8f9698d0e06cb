//! Texts of a bounded length.
ghost use Rattle.std.specs.Prelude.{◌≡◌, ◌≤◌, ◌↔◌, [], ◌++◌, ◌-◌, length, drop, replicate, IsTrue};
ghost use Rattle.rep_fields.specs.Decoding.{DecodesBy};
ghost use Rattle.rep_fields.specs.Latin.{IsText, IsFilled};

use crate::latin::get_a;
use std::marker::Model;

/// A text of at most `N` Latin bytes (0x20 to 0x7E and 0xA0 to 0xFF) that doesn't end in a space. It takes no memory.
#[derive(Clone, Copy, Debug)]
pub struct Text<const N: usize> {
    // zero from `len` on
    cells: [u8; N],
    len: usize,
}

impl<const N: usize> Model for Text<N> {
    ghost use Rattle.std.specs.Prelude.{ℕ, List, length, take, ◌++◌, ◌-◌, replicate};
    ghost use Rattle.rep_fields.specs.Cells.{IsInCells, length_of-cells, cells_of-text};

    ghost Value = { List ℕ };

    ghost view = { λ t. take t.len t.cells };

    ghost invariant = { λ t. IsInCells N t.cells t.len };

    ghost inverse = { λ text. record { cells = text ++ replicate (N - length text) 0; len = length text } };

    ghost inverse_ok = { λ t h i. record { cells = cells_of-text N t.cells t.len h i; len = length_of-cells N t.cells t.len h i } };
}

impl<const N: usize> Text<N> {
    /// The text with no bytes.
    pub fn empty() -> Text<N>
        ensures { result ≡ [] }
    {
        Text {
            cells: [0; N],
            len: 0,
        }
    }

    /// The text of a field, without the spaces at its end. `None` exactly where a byte isn't Latin or more than `N`
    /// bytes remain.
    pub fn read(bytes: &[u8]) -> Option<Text<N>>
        ensures { DecodesBy (IsText N) IsFilled bytes.now result }
    {
        let Some(text) = get_a(bytes) else {
            return None;
        };
        let len = text.len();
        if len > N {
            return None;
        }
        Some(Text {
            cells: cells_of(text),
            len,
        })
    }

    /// The bytes of the text.
    pub fn bytes(&self) -> &[u8]
        ensures value { result.now ≡ self.now }
        ensures text { IsText N self.now }
    {
        &self.cells[..self.len]
    }

    /// How many bytes the text has.
    pub fn len(&self) -> usize
        ensures value { result ≡ length self.now }
        ensures within { result ≤ N }
    {
        self.len
    }

    /// Whether the text has no bytes.
    pub fn is_empty(&self) -> bool
        ensures { IsTrue result ↔ (self.now ≡ []) }
    {
        self.len == 0
    }
}

// Texts are equal exactly where their bytes are.
impl<const N: usize> PartialEq for Text<N> {
    ghost use Rattle.std.specs.Str.{bytes_eq};
    ghost use Rattle.std.proofs.Common.{rules};
    ghost use Rattle.std.specs.Cmp.Rules.{comparing};

    ghost eq = { bytes_eq };

    ghost laws = { Prim.search (comparing, rules) };

    fn eq(&self, other: &Text<N>) -> bool {
        self.bytes() == other.bytes()
    }
}

impl<const N: usize> Eq for Text<N> {
    ghost use Rattle.std.proofs.Common.{rules};
    ghost use Rattle.std.specs.Cmp.Rules.{comparing};

    ghost laws = { Prim.search (comparing, rules) };
}

// The bytes, and zeros behind them.
fn cells_of<const N: usize>(text: &[u8]) -> [u8; N]
    requires { length text.now ≤ N }
    ensures { result ≡ text.now ++ replicate (N - length text.now) 0 }
{
    let mut cells = [0; N];
    put_front(&mut cells, text);
    cells
}

// Writes the bytes over the first ones.
fn put_front(out: &mut [u8], bytes: &[u8])
    requires { length bytes.now ≤ length out.old }
    ensures { out.new ≡ bytes.now ++ drop (length bytes.now) out.old }
{
    out[..bytes.len()].copy_from_slice(bytes);
}
