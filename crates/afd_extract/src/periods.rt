//! Which records a period has.
ghost use Rattle.std.specs.Prelude.{◌≤◌, ◌<◌, ◌-◌, ◌↔◌, ℕ, length, slice_index, IsTrue};
ghost use Rattle.afd_records.specs.Record.{last_nsr};
ghost use Rattle.afd_extract.specs.Period.{IsPeriod};
ghost use Rattle.afd_extract.specs.Steps.{IsBetween};

use rep_fields::Day;

/// The range of the numbers of a period, from the least to the greatest whose recording day lies from `from` to `to`; `None`
/// exactly where there is none. `days` are the recording days of the records by number, of which the first has the number 1.
pub fn period(days: &[u32], from: Day, to: Day) -> Option<(u32, u32)>
    requires { length days.now ≤ last_nsr }
    ensures { IsPeriod days.now from to result }
{
    let first = first_in(days, from.number, to.number);
    if first == days.len() {
        return None;
    }
    let last = end_in(days, from.number, to.number);
    Some((first as u32 + 1, last as u32))
}

// Whether a day lies in a period.
fn is_between(from: u32, to: u32, day: u32) -> bool
    ensures { IsTrue result ↔ IsBetween from to day }
{
    from <= day && day <= to
}

// The place of the first day in the period, or the count of the days where there is none.
fn first_in(days: &[u32], from: u32, to: u32) -> usize
    ensures within { result ≤ length days.now }
    ensures before { (k : ℕ) → k < result → ¬ IsBetween from to (slice_index days.now k) }
    ensures found { result < length days.now → IsBetween from to (slice_index days.now result) }
{
    for (i, day) in days.iter().enumerate() {
        if is_between(from, to, *day) {
            return i;
        }
    }
    days.len()
}

// The place behind the last day in the period, or 0 where there is none.
fn end_in(days: &[u32], from: u32, to: u32) -> usize
    ensures within { result ≤ length days.now }
    ensures behind { (k : ℕ) → result ≤ k → k < length days.now → ¬ IsBetween from to (slice_index days.now k) }
    ensures found { 0 < result → IsBetween from to (slice_index days.now (result - 1)) }
{
    let mut end = days.len();
    while end > 0 {
        if is_between(from, to, days[end - 1]) {
            return end;
        }
        end -= 1;
    }
    0
}
