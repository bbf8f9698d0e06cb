//! The last lines on the output, each with its line feed.
ghost use Rattle.std.specs.Prelude.{◌≡◌, ◌+◌, ◌≤◌, ◌++◌, length};
ghost use Rattle.rep_report.specs.Report.{barred, run_text, fault_text, lane_fault_text, site_text_fault, site_key_fault, created_text, foreign_fault, blank_fault, present_fault, damaged_fault};

use rep_fields::Row;

/// A last line on the output: the longest has five numbers of 64 bits.
pub type OutputLine = Row<128>;

/// The most bytes that a key has in a line of the output.
pub const LONGEST_KEY: usize = 100;

// Appends a number behind a bar.
#[tactic(auto, using(crate::proofs::Decimals::decimal_fits))]
fn push_barred(line: &mut OutputLine, number: u64)
    requires { length line.old + 21 ≤ 128 }
    ensures value { line.new ≡ line.old ++ barred number }
    ensures len { length line.new ≤ length line.old + 21 }
{
    line.push(b'|');
    line.push_decimal(number);
}

// A line that is always the same.
fn fixed_line(text: &[u8]) -> OutputLine
    requires { length text.now ≤ 128 }
    ensures { result ≡ text.now }
{
    let mut line = Row::new();
    line.push_bytes(text);
    line
}

/// The line of the counts: lanes, lines that were answered wholly, receipts and refusals among them, and how many entries
/// the recorder has at the end.
#[tactic(auto, unfolding(crate::specs::Report::run_text))]
pub fn run_line(lanes: u32, lines: u64, receipts: u64, refused: u64, last: u32) -> OutputLine
    ensures { result ≡ run_text lanes lines receipts refused last }
{
    let mut line = Row::new();
    line.push_bytes(b"RUN");
    push_barred(&mut line, u64::from(lanes));
    push_barred(&mut line, lines);
    push_barred(&mut line, receipts);
    push_barred(&mut line, refused);
    push_barred(&mut line, u64::from(last));
    line.push(b'\n');
    line
}

/// The line of a fault that has nothing to say but its status.
#[tactic(auto, unfolding(crate::specs::Report::fault_text))]
pub fn fault_line(status: u8) -> OutputLine
    ensures { result ≡ fault_text status }
{
    let mut line = Row::new();
    line.push_bytes(b"FAULT");
    push_barred(&mut line, u64::from(status));
    line.push(b'\n');
    line
}

/// The line of a lane's line that is refused, lanes and lines counted from 1.
#[tactic(auto, unfolding(crate::specs::Report::lane_fault_text))]
pub fn lane_fault_line(lane: u64, line: u64) -> OutputLine
    ensures { result ≡ lane_fault_text lane line }
{
    let mut row = Row::new();
    row.push_bytes(b"FAULT|3|LANE");
    push_barred(&mut row, lane);
    push_barred(&mut row, line);
    row.push(b'\n');
    row
}

/// The line of a site text that is no TOML.
#[tactic(auto, unfolding(crate::specs::Report::site_text_fault))]
pub fn site_text_line() -> OutputLine
    ensures { result ≡ site_text_fault }
{
    fixed_line(b"FAULT|3|SITE|TEXT\n")
}

/// The line of a site that is refused for a key, of at most `LONGEST_KEY` bytes.
#[tactic(auto, unfolding(crate::specs::Report::site_key_fault))]
pub fn site_key_line(key: &[u8]) -> OutputLine
    requires { length key.now ≤ LONGEST_KEY }
    ensures { result ≡ site_key_fault key.now }
{
    let mut line = Row::new();
    line.push_bytes(b"FAULT|3|SITE|");
    line.push_bytes(key);
    line.push(b'\n');
    line
}

/// The line of a journal that was made.
#[tactic(auto, unfolding(crate::specs::Report::created_text))]
pub fn created_line() -> OutputLine
    ensures { result ≡ created_text }
{
    fixed_line(b"CREATED|1\n")
}

/// The line of contents that are no journal.
#[tactic(auto, unfolding(crate::specs::Report::foreign_fault))]
pub fn foreign_line() -> OutputLine
    ensures { result ≡ foreign_fault }
{
    fixed_line(b"FAULT|9|FOREIGN\n")
}

/// The line of contents in which there is nothing yet.
#[tactic(auto, unfolding(crate::specs::Report::blank_fault))]
pub fn blank_line() -> OutputLine
    ensures { result ≡ blank_fault }
{
    fixed_line(b"FAULT|9|BLANK\n")
}

/// The line of contents in which a journal stands already.
#[tactic(auto, unfolding(crate::specs::Report::present_fault))]
pub fn present_line() -> OutputLine
    ensures { result ≡ present_fault }
{
    fixed_line(b"FAULT|9|PRESENT\n")
}

/// The line of a damaged journal whose broken frame has its gate at this place, in bytes from 0.
#[tactic(auto, unfolding(crate::specs::Report::damaged_fault))]
pub fn damaged_line(at: u64) -> OutputLine
    ensures { result ≡ damaged_fault at }
{
    let mut line = Row::new();
    line.push_bytes(b"FAULT|9|DAMAGED");
    push_barred(&mut line, at);
    line.push(b'\n');
    line
}
