// Where lines end.
ghost use Rattle.std.specs.Prelude.{◌≡◌, ◌<◌, ◌≤◌, ℕ, length, MatchOption};
ghost use Rattle.rep_io.specs.Cutter.{HasNoLineFeed};
ghost use Rattle.rep_io.specs.Lines.{Run, run_text, line_of, has_return, lines_of};
ghost use Rattle.rep_io.specs.Steps.{EndsAt};
ghost use Rattle.afd_read.specs.Filling.{first_of};
ghost use Rattle.afd_read.specs.LineEnds.{IsRun, IsFirstRun, IsWithoutLast};

use memchr::memchr;

const LINE_FEED: u8 = b'\n';

const CARRIAGE_RETURN: u8 = b'\r';

// The place of the first line feed.
pub(crate) fn line_feed(bytes: &[u8]) -> Option<usize>
    ensures { MatchOption result (HasNoLineFeed bytes.now) (EndsAt bytes.now) }
{
    memchr(LINE_FEED, bytes)
}

// How many bytes the first line of the text has, with its end.
pub(crate) fn first_len(text: &[u8]) -> usize
    requires { 0 < length text.now }
    ensures { IsFirstRun text.now result }
{
    match line_feed(text) {
        Some(at) => at + 1,
        None => text.len(),
    }
}

// The first line of the text; no bytes where there is none.
pub(crate) fn first_line(text: &[u8]) -> &[u8]
    ensures { result.now ≡ first_of (lines_of text.now) }
{
    if text.is_empty() {
        return text;
    }
    without_end(&text[..first_len(text)])
}

// The line of which these are the bytes with its end.
pub(crate) fn without_end(bytes: &[u8]) -> &[u8]
    ensures line { (run : Run) → IsRun run → bytes.now ≡ run_text run → result.now ≡ line_of run }
    ensures within { length result.now ≤ length bytes.now }
{
    let line = without_last(bytes, LINE_FEED);
    if line.len() == bytes.len() {
        return bytes;
    }
    without_last(line, CARRIAGE_RETURN)
}

// Whether CR and LF end the line of which these are the bytes with its end.
pub(crate) fn ends_in_return(bytes: &[u8]) -> bool
    ensures { (run : Run) → IsRun run → bytes.now ≡ run_text run → result ≡ has_return run }
{
    bytes.len() - without_end(bytes).len() == 2
}

// The bytes without the last, where that is this one.
fn without_last(bytes: &[u8], byte: u8) -> &[u8]
    ensures { IsWithoutLast byte bytes.now result.now }
{
    let len = bytes.len();
    if len == 0 || bytes[len - 1] != byte {
        return bytes;
    }
    &bytes[..len - 1]
}
