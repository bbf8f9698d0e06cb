ghost use Rattle.std.specs.Prelude.{◌≡◌, ◌↔◌, ℕ, ◌+◌, ◌^◌, ◌<◌, ◌≤◌, [], ◌∷◌, Some, min, length, take, IfOk, OnErr, IsErr};
ghost use Rattle.std.specs.Io.KnownBytes.{prepend_known};
ghost use Rattle.std.specs.List.{concat};
ghost use Rattle.rep_io.specs.Calls.{no_calls, IsListed, CountsCall};
ghost use Rattle.rep_io.specs.Causes.{HasCause};
ghost use Rattle.rep_io.specs.MemSource.{Tap, texts_of, drop_first, from_unused, first_of, pieces_from, IsPlace};
ghost use Rattle.rep_io.specs.Streams.{Reads};

use crate::calls::Calls;
use crate::cause::Failed;
use crate::source::Source;
use std::marker::Model;

/// A source in memory. A read gives at most the rest of the first piece that isn't used up.
///
/// Its calls are numbered from 0, and those listed fail.
#[derive(Drop)]
pub struct MemSource {
    pieces: Vec<Vec<u8>>,
    // the piece under way, and how many of its bytes are used up
    piece: usize,
    at: usize,
    calls: Calls,
}

impl Model for MemSource {
    ghost use Rattle.rep_io.specs.MemSource.{Tap, pieces_from, IsPlace};

    ghost Value = { Tap };

    ghost view = { λ s. record {
      pieces = pieces_from s.pieces.items s.piece s.at;
      calls = s.calls;
    } };

    ghost invariant = { λ s. IsPlace s.pieces.items s.piece s.at };
}

impl MemSource {
    /// A source of these pieces, which fails at the calls of these numbers.
    pub fn new(pieces: Vec<Vec<u8>>, fails: Vec<u64>) -> MemSource
        ensures pieces { result.pieces ≡ texts_of pieces.items }
        ensures calls { result.calls ≡ no_calls fails.items }
        ensures told { ⟦<MemSource as Source>⟧.left result ≡ Some (concat (texts_of pieces.items)) }
        ensures count { ⟦<MemSource as Source>⟧.faults result ≡ 0 }
    {
        MemSource {
            pieces,
            piece: 0,
            at: 0,
            calls: Calls::new(fails),
        }
    }
}

impl Source for MemSource {
    ghost left = { λ s. Some (concat s.pieces) };

    ghost faults = { λ s. s.calls.faults };

    /// Gives as much as fits of the first piece that isn't used up.
    ///
    /// # Errors
    ///
    /// `Failed` exactly where the call's number is listed. Then all pieces stay as they were.
    fn read(&mut self, into: &mut [u8]) -> Result<usize, Failed>
        ensures bytes { Reads (Some (concat self.old.pieces)) (Some (concat self.new.pieces))
            result into.new }
        ensures cause { HasCause self.old.calls.faults self.new.calls.faults result }
        ensures amount { IfOk result (λ n. n
            ≡ min (length into.new) (length (first_of (from_unused self.old.pieces)))) }
        ensures rest { IfOk result (λ n. self.new.pieces
            ≡ drop_first n (from_unused self.old.pieces)) }
        ensures same { OnErr result (self.new.pieces ≡ self.old.pieces) }
        ensures fails { IsErr result ↔ IsListed self.old.calls }
        ensures counted { CountsCall self.old.calls self.new.calls result }
    {
        self.calls.begin(true)?;
        let (piece, at) = first_unused(&self.pieces, self.piece, self.at);
        let count = copy_front(into, rest_of(&self.pieces, piece, at));
        self.piece = piece;
        self.at = at + count;
        Ok(count)
    }
}

// The place of the first byte that isn't used up.
fn first_unused(pieces: &[Vec<u8>], piece: usize, at: usize) -> (usize, usize)
    requires { IsPlace pieces.now piece at }
    ensures same { pieces_from pieces.now result.0 result.1
        ≡ from_unused (pieces_from pieces.now piece at) }
    ensures place { IsPlace pieces.now result.0 result.1 }
{
    let mut piece = piece;
    let mut at = at;
    while piece < pieces.len() && at == pieces[piece].len() {
        piece += 1;
        at = 0;
    }
    (piece, at)
}

// The rest of the piece under way.
fn rest_of(pieces: &[Vec<u8>], piece: usize, at: usize) -> &[u8]
    requires { IsPlace pieces.now piece at }
    ensures value { result.now ≡ first_of (pieces_from pieces.now piece at) }
    ensures fits { at + length result.now < 2 ^ 64 }
{
    if piece == pieces.len() {
        return &[];
    }
    let bytes = pieces[piece].as_slice();
    &bytes[at..]
}

// Copies as much of the front of the bytes as fits.
fn copy_front(into: &mut [u8], bytes: &[u8]) -> usize
    ensures count { result ≡ min (length into.new) (length bytes.now) }
    ensures copied { take result into.new ≡ take result bytes.now }
{
    let count = into.len().min(bytes.len());
    into[..count].copy_from_slice(&bytes[..count]);
    count
}
