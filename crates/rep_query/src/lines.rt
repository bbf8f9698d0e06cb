//! The last lines on the output, each with its line feed.
ghost use Rattle.std.specs.Prelude.{◌≡◌, ◌+◌, ◌≤◌, ◌++◌, length};
ghost use Rattle.rep_report.specs.Report.{barred};
ghost use Rattle.rep_query.specs.Lines.{dates_fault, extracted_text, no_such_nsr_fault, not_a_clocking_fault, numbers_of};

use rep_fields::Row;
use rep_report::OutputLine;

// Appends a number behind a bar.
#[tactic(auto, using(rep_report::proofs::Decimals::decimal_fits))]
fn push_barred(line: &mut OutputLine, number: u64)
    requires { length line.old + 21 ≤ 128 }
    ensures value { line.new ≡ line.old ++ barred number }
    ensures len { length line.new ≤ length line.old + 21 }
{
    line.push(b'|');
    line.push_decimal(number);
}

// The first and the last number of a range, zeros where it has none.
fn numbers_of(range: Option<(u32, u32)>) -> (u32, u32)
    ensures { result ≡ numbers_of range }
{
    match range {
        Some((first, last)) => (first, last),
        None => (0, 0),
    }
}

/// The line of an AFD that was written: the first and the last number of its records, zeros where it has none, and how many
/// bytes it has.
#[tactic(auto, unfolding(crate::specs::Lines::extracted_text))]
pub fn extracted_line(range: Option<(u32, u32)>, bytes: u64) -> OutputLine
    ensures { result ≡ extracted_text (numbers_of range).0 (numbers_of range).1 bytes }
{
    let (first, last) = numbers_of(range);
    let mut line = Row::new();
    line.push_bytes(b"EXTRACT");
    push_barred(&mut line, u64::from(first));
    push_barred(&mut line, u64::from(last));
    push_barred(&mut line, bytes);
    line.push(b'\n');
    line
}

/// The line of words that name no period.
#[tactic(auto, unfolding(crate::specs::Lines::dates_fault))]
pub fn dates_line() -> OutputLine
    ensures { result ≡ dates_fault }
{
    let mut line = Row::new();
    line.push_bytes(b"FAULT|3|DATES\n");
    line
}

/// The line of a number that the history doesn't have.
#[tactic(auto, unfolding(crate::specs::Lines::no_such_nsr_fault))]
pub fn no_such_nsr_line(nsr: u32) -> OutputLine
    ensures { result ≡ no_such_nsr_fault nsr }
{
    let mut line = Row::new();
    line.push_bytes(b"FAULT|3|NOSUCHNSR");
    push_barred(&mut line, u64::from(nsr));
    line.push(b'\n');
    line
}

/// The line of a number that is no clocking's.
#[tactic(auto, unfolding(crate::specs::Lines::not_a_clocking_fault))]
pub fn not_a_clocking_line(nsr: u32) -> OutputLine
    ensures { result ≡ not_a_clocking_fault nsr }
{
    let mut line = Row::new();
    line.push_bytes(b"FAULT|3|NOTACLOCKING");
    push_barred(&mut line, u64::from(nsr));
    line.push(b'\n');
    line
}
