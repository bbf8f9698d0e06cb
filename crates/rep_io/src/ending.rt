// Where a line ends, and what is told of it.
ghost use Rattle.std.specs.Prelude.{◌≡◌, ◌<◌, true, false, length, IsTrue, MatchOption};
ghost use Rattle.rep_io.specs.Cutter.{HasNoLineFeed};
ghost use Rattle.rep_io.specs.Lines.{ends_in_return};
ghost use Rattle.rep_io.specs.Next.{Tells};
ghost use Rattle.rep_io.specs.Next.{IsOfLine};
ghost use Rattle.rep_io.specs.Steps.{EndsAt, IsTold};

use crate::next::Next;
use crate::piece::Piece;
use memchr::memchr;

// The place of the first line feed.
pub fn line_end(bytes: &[u8]) -> Option<usize>
    ensures { MatchOption result (HasNoLineFeed bytes.now) (EndsAt bytes.now) }
{
    memchr(b'\n', bytes)
}

// The line of a run of these bytes that a line feed ends.
pub fn ended_line(bytes: &[u8]) -> Next
    ensures tells { Tells result (record { bytes = bytes.now; ended = true }) }
    ensures of_line { IsOfLine result }
{
    let crlf = ends_in_return(bytes);
    let line = if crlf {
        &bytes[..bytes.len() - 1]
    } else {
        bytes
    };
    told(line, crlf)
}

// Whether the last byte is a CR.
fn ends_in_return(bytes: &[u8]) -> bool
    ensures value { result ≡ ends_in_return bytes.now }
    ensures some { IsTrue result → 0 < length bytes.now }
{
    match bytes.last() {
        Some(&byte) => byte == b'\r',
        None => false,
    }
}

// The line of a run of these bytes with which the text ends.
pub fn last_line(bytes: &[u8]) -> Next
    ensures tells { Tells result (record { bytes = bytes.now; ended = false }) }
    ensures of_line { IsOfLine result }
{
    told(bytes, false)
}

// A line, or that it is too long.
fn told(line: &[u8], crlf: bool) -> Next
    ensures { IsTold result line.now crlf }
{
    match Piece::make(line) {
        Some(bytes) => Next::Line { bytes, crlf },
        None => Next::TooLong,
    }
}
