ghost use Rattle.std.specs.Prelude.{◌≡◌, ℕ, ◌+◌, ◌≤◌, List, length, IfOk, IfErr};
ghost use Rattle.rep_io.specs.Causes.{Rose};
ghost use Rattle.rep_io.specs.Lines.{lines_of, longest_text};
ghost use Rattle.rep_io.specs.Transfer.{Takes, ReadsWhole};
ghost use Rattle.afd_records.specs.declared.header.Head.{Head as TheHead};
ghost use Rattle.afd_read.specs.Beginning.{IsHeadLine, IsHeadOf, HasNoHead, SaysOf};
ghost use Rattle.afd_read.specs.Filling.{first_of, IsJudgedEarly, IsRefusalOf, piece_size, most_before_refusal};

use crate::afd::Afd;
use crate::fault::AfdFault;
use crate::filling::{PIECE, fill_first, fill_rest};
use crate::index::index_of;
use crate::line_end::first_line;
use afd_records::{Head, read_head};
use rep_io::Source;
use std::alloc::{AllocError, Global};

/// Reads all that the source has left as an AFD. Its first line is judged before more is read than tells it: of a text
/// without a head nothing is taken but bytes that don't show the first line, and what one read gives behind them.
///
/// # Errors
///
/// `NotAnAfd` exactly where there is no first line, or it isn't a head. `SourceFault` where the source failed in this
/// call, and only there: it isn't asked again then. `InputLimit` where the text begins with a head and has more bytes
/// than a text may have: one more was taken then. After each error what was taken is a front of what was left.
pub fn read_afd<S: Source>(alloc: Global, source: &mut S) -> Result<Afd, AfdFault>
    ensures whole { IfOk result (ReadsWhole (S.left source.old) (S.left source.new)) }
    ensures begins { IfOk result (λ afd. (head : TheHead) × IsHeadOf afd head) }
    ensures says { (text : List ℕ) → S.left source.old ≡ Some text → IfErr result (SaysOf text) }
    ensures first_line { (line field : ℕ) → result ≡ Err (AfdFault.NotAnAfd line field) → line ≡ 1 }
    ensures early { (line field : ℕ) → result ≡ Err (AfdFault.NotAnAfd line field)
        → (n : ℕ) × (n ≤ most_before_refusal) × Takes (S.left source.old) (S.left source.new) n }
    ensures judged_early { (line field : ℕ) → result ≡ Err (AfdFault.NotAnAfd line field)
        → IsJudgedEarly (S.left source.old) (S.left source.new) }
    ensures no_further { (text : List ℕ) → S.left source.old ≡ Some text → HasNoHead text
        → IsJudgedEarly (S.left source.old) (S.left source.new) }
    ensures limit { result ≡ Err AfdFault.InputLimit
        → Takes (S.left source.old) (S.left source.new) (longest_text + 1) }
    ensures front { (n : ℕ) × (n ≤ longest_text + 1)
        × Takes (S.left source.old) (S.left source.new) n }
    ensures later { S.faults source.old ≤ S.faults source.new }
    ensures source_fault { result ≡ Err AfdFault.SourceFault
        → Rose (S.faults source.old) (S.faults source.new) }
    ensures no_fault { (result ≡ Err AfdFault.SourceFault → ⊥)
        → S.faults source.new ≡ S.faults source.old }
{
    let mut piece = piece(alloc)?;
    let mut bytes = Vec::new(alloc);
    let ended = fill_first(source, &mut piece, &mut bytes)?;
    let head = judge(&bytes)?;
    fill_rest(source, &mut piece, &mut bytes, ended)?;
    let bounds = index_of(alloc, &bytes)?;
    Ok(Afd::keep(bytes, bounds, head))
}

// Room for what one read gives.
fn piece(alloc: Global) -> Result<Vec<u8>, AllocError>
    ensures { IfOk result (λ piece. length piece.items ≡ piece_size) }
{
    vec![in alloc; 0; PIECE]
}

// The head with which the bytes begin.
fn judge(bytes: &[u8]) -> Result<Head, AfdFault>
    ensures head { IfOk result (λ head. IsHeadLine head (first_of (lines_of bytes.now))) }
    ensures refusal { IfErr result (IsRefusalOf (first_of (lines_of bytes.now))) }
{
    match read_head(first_line(bytes)) {
        Ok(found) => Ok(found.head),
        Err(bad) => Err(AfdFault::NotAnAfd {
            line: 1,
            field: bad.field,
        }),
    }
}
