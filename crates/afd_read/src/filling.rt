// Reads a source into a buffer.
ghost use Rattle.std.specs.Prelude.{◌≡◌, ℕ, ◌+◌, ◌<◌, ◌≤◌, ◌↔◌, [], length, vec_len, IfOk, IfErr, IsTrue};
ghost use Rattle.std.specs.Io.KnownBytes.{IsAtEnd};
ghost use Rattle.rep_io.specs.Causes.{Rose};
ghost use Rattle.rep_io.specs.Lines.{longest_text};
ghost use Rattle.rep_io.specs.Transfer.{Takes};
ghost use Rattle.afd_read.specs.Filling.{piece_size, ShowsFirst, IsJudgedEarly, AppendsPiece, FillsFirst, FillsRest, IsPastLimit, IsOfOutside, IsNoRefusal};

use crate::fault::AfdFault;
use crate::line_end::line_feed;
use rep_io::{LONGEST_LINE, LONGEST_TEXT, Source};

// How many bytes are asked of a source at a time.
pub(crate) const PIECE: usize = 65_536;

// Reads until what was read tells whether the text has a head, and answers whether the source has ended.
pub(crate) fn fill_first<S: Source>(
    source: &mut S,
    piece: &mut [u8],
    bytes: &mut Vec<u8>,
) -> Result<bool, AfdFault>
    requires size { length piece.old ≡ piece_size }
    requires empty { bytes.old.items ≡ [] }
    ensures fills { IfOk result (FillsFirst (S.left source.old) (S.left source.new) bytes.new.items) }
    ensures size { length piece.new ≡ piece_size }
    ensures front { (n : ℕ) × (n ≤ longest_text + 1) × Takes (S.left source.old) (S.left source.new) n }
    ensures early { IsJudgedEarly (S.left source.old) (S.left source.new) }
    ensures outside { IfErr result IsOfOutside }
    ensures later { S.faults source.old ≤ S.faults source.new }
    ensures source_fault { result ≡ Err AfdFault.SourceFault
        → Rose (S.faults source.old) (S.faults source.new) }
    ensures no_fault { (result ≡ Err AfdFault.SourceFault → ⊥)
        → S.faults source.new ≡ S.faults source.old }
{
    while !shows_first(bytes) {
        if !read_piece(source, piece, bytes)? {
            return Ok(true);
        }
    }
    Ok(false)
}

// Whether a line ends in these bytes, or they are more than a line may have.
fn shows_first(bytes: &[u8]) -> bool
    ensures { IsTrue result ↔ ShowsFirst bytes.now }
{
    bytes.len() > LONGEST_LINE + 1 || line_feed(bytes).is_some()
}

// Reads all that the source has left. Where it has ended it isn't asked again.
pub(crate) fn fill_rest<S: Source>(
    source: &mut S,
    piece: &mut [u8],
    bytes: &mut Vec<u8>,
    ended: bool,
) -> Result<(), AfdFault>
    requires size { length piece.old ≡ piece_size }
    requires room { vec_len bytes.old ≤ longest_text }
    requires at_end { IsTrue ended → IsAtEnd (S.left source.old) }
    ensures fills { IfOk result (λ _. FillsRest (S.left source.old) (S.left source.new)
        bytes.old.items bytes.new.items ended) }
    ensures limit { result ≡ Err AfdFault.InputLimit
        → IsPastLimit (S.left source.old) (S.left source.new) bytes.old.items }
    ensures front { (n : ℕ) × (n + vec_len bytes.old ≤ longest_text + 1)
        × Takes (S.left source.old) (S.left source.new) n }
    ensures no_refusal { IfErr result IsNoRefusal }
    ensures later { S.faults source.old ≤ S.faults source.new }
    ensures source_fault { result ≡ Err AfdFault.SourceFault
        → Rose (S.faults source.old) (S.faults source.new) }
    ensures no_fault { (result ≡ Err AfdFault.SourceFault → ⊥)
        → S.faults source.new ≡ S.faults source.old }
    ensures stays { IsTrue ended → source.new ≡ source.old }
{
    if ended {
        return Ok(());
    }
    while read_piece(source, piece, bytes)? {
        if bytes.len() > LONGEST_TEXT {
            return Err(AfdFault::InputLimit);
        }
    }
    Ok(())
}

// Reads once, appends what came, and says whether anything came. Room for it is taken first.
fn read_piece<S: Source>(
    source: &mut S,
    piece: &mut [u8],
    bytes: &mut Vec<u8>,
) -> Result<bool, AfdFault>
    requires room { vec_len bytes.old ≤ longest_text }
    requires size { length piece.old ≡ piece_size }
    ensures few { (n : ℕ) × (n ≤ piece_size) × Takes (S.left source.old) (S.left source.new) n }
    ensures more { IfOk result (AppendsPiece (S.left source.old) (S.left source.new)
        bytes.old.items bytes.new.items) }
    ensures size { length piece.new ≡ piece_size }
    ensures front { (n : ℕ) × (n + vec_len bytes.old ≤ longest_text + 1)
        × Takes (S.left source.old) (S.left source.new) n }
    ensures outside { IfErr result IsOfOutside }
    ensures later { S.faults source.old ≤ S.faults source.new }
    ensures source_fault { result ≡ Err AfdFault.SourceFault
        → Rose (S.faults source.old) (S.faults source.new) }
    ensures no_fault { (result ≡ Err AfdFault.SourceFault → ⊥)
        → S.faults source.new ≡ S.faults source.old }
{
    let most = piece.len().min(LONGEST_TEXT + 1 - bytes.len());
    bytes.reserve(most)?;
    let free = &mut piece[..most];
    let Ok(count) = source.read(free) else {
        return Err(AfdFault::SourceFault);
    };
    bytes.extend_from_slice(&free[..count])?;
    Ok(count > 0)
}
