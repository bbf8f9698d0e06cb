ghost use Rattle.std.specs.Prelude.{◌≡◌, ℕ, ◌+◌, ◌<◌, ◌≤◌, List, length, vec_len, IfOk};
ghost use Rattle.std.specs.Io.KnownBytes.{prepend_known, IsAtEnd};
ghost use Rattle.rep_io.specs.Causes.{HasCause, Rose};
ghost use Rattle.rep_io.specs.Lines.{longest_text};
ghost use Rattle.rep_io.specs.Streams.{WritesAll};
ghost use Rattle.rep_io.specs.Transfer.{Takes, ReadsWhole, AppendsRead};

use crate::lines::LONGEST_TEXT;
use crate::sink::{Sink, SinkFault};
use crate::source::Source;
use std::alloc::{AllocError, Global};

/// How many bytes `read_whole` asks its source for at a time.
const READ_SIZE: usize = 65_536;

/// Writes all of the piece.
///
/// # Errors
///
/// `SinkFault` only where the sink failed in this call, and no failure is passed over. Some front of the piece was
/// taken then, and not all of it.
pub fn put_all<K: Sink>(sink: &mut K, piece: &[u8]) -> Result<(), SinkFault>
    ensures bytes { WritesAll (K.written sink.old) (K.written sink.new) result piece.now }
    ensures cause { HasCause (K.faults sink.old) (K.faults sink.new) result }
{
    let mut put = 0;
    while put < piece.len() {
        let Ok(count) = sink.write(&piece[put..]) else {
            return Err(SinkFault);
        };
        put += count;
    }
    Ok(())
}

/// A source couldn't be read whole.
#[derive(Clone, Copy, Debug, PartialEq, Eq)]
pub enum ReadFault {
    /// The source failed.
    SourceFault,
    /// More bytes came than a text may have.
    InputLimit,
    /// There was not enough memory.
    OutOfMemory,
}

impl From<AllocError> for ReadFault {
    ghost use Rattle.std.specs.Prelude.{◌≡◌};
    ghost use Rattle.rep_io.specs.declared.transfer.ReadFault.TheVariants.{OutOfMemory};

    ghost from_gives = { λ _ fault. fault ≡ OutOfMemory };

    fn from(_: AllocError) -> Self {
        ReadFault::OutOfMemory
    }
}

/// All the bytes that the source has left, `LONGEST_TEXT` at most.
///
/// # Errors
///
/// `SourceFault` only where the source failed in this call, and no failure is passed over. `InputLimit` where more bytes
/// came than a text may have: one more was taken then. After each error what was taken is a front of what was left.
pub fn read_whole<S: Source>(alloc: Global, source: &mut S) -> Result<Vec<u8>, ReadFault>
    ensures whole { IfOk result (λ v. ReadsWhole (S.left source.old) (S.left source.new) v.items) }
    ensures limit { result ≡ Err ReadFault.InputLimit
        → Takes (S.left source.old) (S.left source.new) (longest_text + 1) }
    ensures front { (n : ℕ) × (n ≤ longest_text + 1)
        × Takes (S.left source.old) (S.left source.new) n }
    ensures later { S.faults source.old ≤ S.faults source.new }
    ensures source_fault { result ≡ Err ReadFault.SourceFault
        → Rose (S.faults source.old) (S.faults source.new) }
    ensures no_fault { (result ≡ Err ReadFault.SourceFault → ⊥)
        → S.faults source.new ≡ S.faults source.old }
{
    let mut buffer = zeros(alloc, READ_SIZE)?;
    let mut bytes = Vec::new(alloc);
    while read_piece(source, &mut buffer, &mut bytes)? {
        if bytes.len() > LONGEST_TEXT {
            return Err(ReadFault::InputLimit);
        }
    }
    Ok(bytes)
}

// So many zeros.
fn zeros(alloc: Global, count: usize) -> Result<Vec<u8>, AllocError>
    ensures { IfOk result (λ v. length v.items ≡ count) }
{
    vec![in alloc; 0; count]
}

// Reads once, appends what came, and says whether anything came.
fn read_piece<S: Source>(
    source: &mut S,
    buffer: &mut [u8],
    bytes: &mut Vec<u8>,
) -> Result<bool, ReadFault>
    requires room { vec_len bytes.old ≤ longest_text }
    requires some { 0 < length buffer.old }
    ensures more { IfOk result (AppendsRead (S.left source.old) (S.left source.new)
        bytes.old.items bytes.new.items) }
    ensures front { (n : ℕ) × (n + vec_len bytes.old ≤ longest_text + 1)
        × Takes (S.left source.old) (S.left source.new) n }
    ensures later { S.faults source.old ≤ S.faults source.new }
    ensures no_limit { result ≡ Err ReadFault.InputLimit → ⊥ }
    ensures source_fault { result ≡ Err ReadFault.SourceFault
        → Rose (S.faults source.old) (S.faults source.new) }
    ensures no_fault { (result ≡ Err ReadFault.SourceFault → ⊥)
        → S.faults source.new ≡ S.faults source.old }
{
    let most = buffer.len().min(LONGEST_TEXT + 1 - bytes.len());
    let free = &mut buffer[..most];
    let Ok(count) = source.read(free) else {
        return Err(ReadFault::SourceFault);
    };
    bytes.extend_from_slice(&free[..count])?;
    Ok(count > 0)
}
