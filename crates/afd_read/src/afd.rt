ghost use Rattle.std.specs.Prelude.{◌≡◌, ◌≤◌};
ghost use Rattle.rep_io.specs.Lines.{run_text, longest_text};
ghost use Rattle.afd_read.specs.Numbered.{line_count, IsLineNumber, run_at, is_long, shown_line, shown_return};

use crate::index::run_between;
use crate::line_end::{ends_in_return, without_end};
use afd_records::Head;
use rep_io::LONGEST_LINE;
use std::marker::Model;

/// An AFD that was read, which is seen as its text: a head and the lines behind it.
///
/// Lines are numbered from 1. A line ends at LF, and a CR directly before that LF isn't part of it. Bytes behind the last
/// LF are a line too.
#[derive(Drop)]
pub struct Afd {
    bytes: Vec<u8>,
    // where the lines begin, and where the last one ends
    bounds: Vec<u32>,
    head: Head,
}

impl Model for Afd {
    ghost use Rattle.std.specs.Prelude.{ℕ, List};
    ghost use Rattle.afd_read.specs.Index.{IsKept};

    ghost Value = { List ℕ };

    ghost view = { λ afd. afd.bytes.items };

    ghost invariant = { λ afd. IsKept afd.bytes.items afd.bounds.items afd.head };
}

impl Afd {
    ghost use Rattle.afd_read.specs.Beginning.{IsHeadOf};
    ghost use Rattle.afd_read.specs.Index.{IsKept};

    // An AFD of this text, with the bounds of its lines and its head.
    pub(crate) fn keep(bytes: Vec<u8>, bounds: Vec<u32>, head: Head) -> Afd
        requires { IsKept bytes.items bounds.items head }
        ensures { result ≡ bytes.items }
    {
        Afd {
            bytes,
            bounds,
            head,
        }
    }

    /// The head, which is the first line.
    pub fn head(&self) -> &Head
        ensures { IsHeadOf self.now result.now }
    {
        &self.head
    }

    /// How many lines there are: at least 1.
    pub fn count(&self) -> u64
        ensures lines { result ≡ line_count self.now }
        ensures some { 1 ≤ result }
        ensures in_room { result ≤ longest_text }
    {
        self.bounds.len() as u64 - 1
    }

    /// The line of this number, without its end. It is empty where the line has more than 512 bytes.
    pub fn line(&self, i: u64) -> &[u8]
        requires { IsLineNumber self.now i }
        ensures { result.now ≡ shown_line (run_at self.now i) }
    {
        let line = without_end(self.run(i));
        if line.len() > LONGEST_LINE {
            return &[];
        }
        line
    }

    /// Whether CR and LF end the line of this number. It is true where the line has more than 512 bytes.
    pub fn crlf(&self, i: u64) -> bool
        requires { IsLineNumber self.now i }
        ensures { result ≡ shown_return (run_at self.now i) }
    {
        self.long(i) || ends_in_return(self.run(i))
    }

    /// Whether the line of this number has more than 512 bytes, its end not counted.
    pub fn long(&self, i: u64) -> bool
        requires { IsLineNumber self.now i }
        ensures { result ≡ is_long (run_at self.now i) }
    {
        without_end(self.run(i)).len() > LONGEST_LINE
    }

    // The line of this number with its end.
    fn run(&self, i: u64) -> &[u8]
        requires { IsLineNumber self.now i }
        ensures { result.now ≡ run_text (run_at self.now i) }
    {
        run_between(&self.bytes, &self.bounds, i as usize - 1)
    }
}
