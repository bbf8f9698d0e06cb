//! Lines that are written from left to right.
ghost use Rattle.std.specs.Prelude.{◌≡◌, ◌+◌, ◌<◌, ◌≤◌, [], ◌∷◌, ◌++◌, ◌↔◌, length, decimal, IsTrue};
ghost use Rattle.rep_fields.specs.Digits.{numeral, FitsDigits};
ghost use Rattle.rep_fields.specs.Latin.{padded};

use crate::digits::{MOST_DIGITS, put_n};
use crate::latin::put_a;
use std::marker::Model;

/// A line, or a piece of one, of at most `N` bytes, that is written from left to right. It takes no memory.
#[derive(Drop)]
pub struct Row<const N: usize> {
    cells: [u8; N],
    len: usize,
}

impl<const N: usize> Model for Row<N> {
    ghost use Rattle.std.specs.Prelude.{◌≡◌, ◌≤◌, ℕ, List, length, take};

    ghost Value = { List ℕ };

    ghost view = { λ r. take r.len r.cells };

    ghost invariant = { λ r. (length r.cells ≡ N) × (r.len ≤ N) };
}

impl<const N: usize> Row<N> {
    /// A row with no bytes.
    pub fn new() -> Self
        ensures value { result ≡ [] }
        ensures len { length result ≡ 0 }
    {
        Row {
            cells: [0; N],
            len: 0,
        }
    }

    /// The bytes so far.
    pub fn bytes(&self) -> &[u8]
        ensures value { result.now ≡ self.now }
        ensures within { length result.now ≤ N }
    {
        &self.cells[..self.len]
    }

    /// How many bytes there are so far.
    pub fn len(&self) -> usize
        ensures value { result ≡ length self.now }
        ensures within { result ≤ N }
    {
        self.len
    }

    /// Whether there is no byte yet.
    pub fn is_empty(&self) -> bool
        ensures { IsTrue result ↔ (self.now ≡ []) }
    {
        self.len == 0
    }

    /// Appends the byte.
    pub fn push(&mut self, byte: u8)
        requires { length self.old < N }
        ensures value { self.new ≡ self.old ++ byte ∷ [] }
        ensures len { length self.new ≡ length self.old + 1 }
    {
        self.cells[self.len] = byte;
        self.len += 1;
    }

    /// Appends the bytes.
    pub fn push_bytes(&mut self, bytes: &[u8])
        requires { length self.old + length bytes.now ≤ N }
        ensures value { self.new ≡ self.old ++ bytes.now }
        ensures len { length self.new ≡ length self.old + length bytes.now }
    {
        let end = self.len + bytes.len();
        let cells = &mut self.cells[..];
        cells[self.len..end].copy_from_slice(bytes);
        self.len = end;
    }

    /// Appends the number in as many decimal digits as it needs.
    pub fn push_decimal(&mut self, value: u64)
        requires { length self.old + length (decimal value) ≤ N }
        ensures value { self.new ≡ self.old ++ decimal value }
        ensures len { length self.new ≡ length self.old + length (decimal value) }
    {
        let mut buffer = itoa::Buffer::new();
        self.push_bytes(buffer.format(value).as_bytes());
    }

    /// Appends the number in `width` decimal digits, with zeros in front.
    pub fn push_numeral(&mut self, width: usize, value: u64)
        requires width { width ≤ MOST_DIGITS }
        requires fits { FitsDigits width value }
        requires room { length self.old + width ≤ N }
        ensures value { self.new ≡ self.old ++ numeral width value }
        ensures len { length self.new ≡ length self.old + width }
    {
        let end = self.len + width;
        let cells = &mut self.cells[..];
        put_n(&mut cells[self.len..end], value);
        self.len = end;
    }

    /// Appends the text and then spaces, up to `width` bytes.
    pub fn push_padded(&mut self, width: usize, text: &[u8])
        requires fits { length text.now ≤ width }
        requires room { length self.old + width ≤ N }
        ensures value { self.new ≡ self.old ++ padded width text.now }
        ensures len { length self.new ≡ length self.old + width }
    {
        let end = self.len + width;
        let cells = &mut self.cells[..];
        put_a(&mut cells[self.len..end], text);
        self.len = end;
    }
}
