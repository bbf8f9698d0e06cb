//! Lines that are put to a sink in large pieces.
ghost use Rattle.std.specs.Prelude.{◌≡◌, ◌+◌, ◌≤◌, [], ◌++◌, length, OnOk};
ghost use Rattle.rep_io.specs.Causes.{HasCause};
ghost use Rattle.afd_records.specs.File.{HasHeadText, HasTrailerText, ended, head_text, signature_text, trailer_text};
ghost use Rattle.afd_extract.specs.Steps.{Puts};

use afd_records::{
    EMPLOYER_LEN, HEAD_LEN, Head, SIGNATURE_LEN, TRAILER_LEN, Trailer, print_head, print_trailer,
    signature,
};
use rep_fields::Row;
use rep_io::{Sink, SinkFault, put_all};

/// No line of an AFD is longer than an employer's record.
const LONGEST_LINE: usize = EMPLOYER_LEN;

/// How many bytes are held before they are written.
const BUFFER_LEN: usize = 65_536;

/// How many bytes the head has with its end.
pub(crate) const HEAD_BYTES: u64 = HEAD_LEN as u64 + 2;

/// How many bytes the trailer and the line for the signature have with their ends.
pub(crate) const END_BYTES: u64 = TRAILER_LEN as u64 + 2 + SIGNATURE_LEN as u64 + 2;

/// Bytes that are still to be written.
pub(crate) type Buffer = Row<BUFFER_LEN>;

/// Puts the head's line.
pub(crate) fn put_head<K: Sink>(
    head: &Head,
    sink: &mut K,
    held: &mut Buffer,
) -> Result<(), SinkFault>
    requires { HasHeadText head.now }
    ensures bytes { Puts (K.written sink.old) (K.written sink.new) held.old held.new (ended (head_text head.now)) result }
    ensures size { length (head_text head.now) + 2 ≡ HEAD_BYTES }
    ensures cause { HasCause (K.faults sink.old) (K.faults sink.new) result }
{
    put_line(sink, held, &print_head(head))
}

/// Puts the trailer and the line for the signature.
pub(crate) fn put_end<K: Sink>(
    trailer: &Trailer,
    sink: &mut K,
    held: &mut Buffer,
) -> Result<(), SinkFault>
    requires { HasTrailerText trailer.now.counts }
    ensures bytes { Puts (K.written sink.old) (K.written sink.new) held.old held.new
        (ended (trailer_text trailer.now.counts) ++ ended signature_text) result }
    ensures size { length (trailer_text trailer.now.counts) + 2 + length signature_text + 2 ≡ END_BYTES }
    ensures cause { HasCause (K.faults sink.old) (K.faults sink.new) result }
{
    put_line(sink, held, &print_trailer(trailer))?;
    put_line(sink, held, &signature())
}

/// Puts a line and its end.
pub(crate) fn put_line<K: Sink>(
    sink: &mut K,
    held: &mut Buffer,
    line: &[u8],
) -> Result<(), SinkFault>
    requires { length line.now ≤ LONGEST_LINE }
    ensures bytes { Puts (K.written sink.old) (K.written sink.new) held.old held.new (ended line.now) result }
    ensures cause { HasCause (K.faults sink.old) (K.faults sink.new) result }
{
    make_room(sink, held)?;
    held.push_bytes(line);
    held.push_bytes(b"\r\n");
    Ok(())
}

// Writes what is held where there is no room for one line more.
fn make_room<K: Sink>(sink: &mut K, held: &mut Buffer) -> Result<(), SinkFault>
    ensures bytes { Puts (K.written sink.old) (K.written sink.new) held.old held.new [] result }
    ensures room { OnOk result (length held.new + LONGEST_LINE + 2 ≤ BUFFER_LEN) }
    ensures cause { HasCause (K.faults sink.old) (K.faults sink.new) result }
{
    if held.len() + LONGEST_LINE + 2 <= BUFFER_LEN {
        return Ok(());
    }
    put_all(sink, held.bytes())?;
    *held = Row::new();
    Ok(())
}
