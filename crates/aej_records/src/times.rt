ghost use Rattle.std.specs.Prelude.{◌≡◌, ◌≤◌, ◌↔◌, IsSome, IfSome, IsTrue, All, length, ◌++◌, ◌-◌, replicate, drop};
ghost use Rattle.aej_records.specs.Times.{IsTimes};
ghost use Rattle.rep_fields.specs.Moment.{IsMinuteOfDay};

use rep_fields::MINUTES_OF_DAY;
use std::marker::Model;

/// The most times of a schedule: ten entries and ten exits.
pub const MOST_TIMES: usize = 20;

/// The entries and exits of a contractual schedule in turn, each a minute of the day: 2 to 20 of them, an even number.
#[derive(Clone, Copy, Debug, PartialEq, Eq)]
pub struct Times {
    // zero from `len` on
    cells: [u32; MOST_TIMES],
    len: usize,
}

impl Model for Times {
    ghost use Rattle.std.specs.Prelude.{ℕ, List, length, take, ◌++◌, ◌-◌, replicate};
    ghost use Rattle.aej_records.specs.Times.{IsInCells, length_of-cells, cells_of-times};

    ghost Value = { List ℕ };

    ghost view = { λ t. take t.len t.cells };

    ghost invariant = { λ t. IsInCells t.cells t.len };

    ghost inverse = { λ times. record { cells = times ++ replicate (20 - length times) 0; len = length times } };

    ghost inverse_ok = { λ t h i. record { cells = cells_of-times t.cells t.len h i; len = length_of-cells t.cells t.len h i } };
}

impl Times {
    /// These minutes of the day as a schedule's times. `None` exactly where there are fewer than 2, more than 20 or an
    /// odd number of them, and where one isn't a minute of the day, 0 to 1439.
    pub fn make(minutes: &[u32]) -> Option<Times>
        ensures succeeds { IsSome result ↔ IsTimes minutes.now }
        ensures value { IfSome result (λ times. times ≡ minutes.now) }
    {
        let len = minutes.len();
        if len < 2 || len > MOST_TIMES || len % 2 != 0 || !are_minutes(minutes) {
            return None;
        }
        Some(Times {
            cells: cells_of(minutes),
            len,
        })
    }

    /// The minutes of the day.
    pub fn minutes(&self) -> &[u32]
        ensures value { result.now ≡ self.now }
        ensures times { IsTimes self.now }
    {
        &self.cells[..self.len]
    }
}

// Whether each is a minute of the day.
fn are_minutes(minutes: &[u32]) -> bool
    ensures { IsTrue result ↔ All IsMinuteOfDay minutes.now }
{
    minutes.iter().all(|minute| *minute < MINUTES_OF_DAY)
}

// The minutes, and zeros behind them.
fn cells_of(minutes: &[u32]) -> [u32; MOST_TIMES]
    requires { length minutes.now ≤ MOST_TIMES }
    ensures { result ≡ minutes.now ++ replicate (20 - length minutes.now) 0 }
{
    let mut cells = [0; MOST_TIMES];
    put_front(&mut cells, minutes);
    cells
}

// Writes the minutes over the first cells.
fn put_front(cells: &mut [u32], minutes: &[u32])
    requires { length minutes.now ≤ length cells.old }
    ensures { cells.new ≡ minutes.now ++ drop (length minutes.now) cells.old }
{
    cells[..minutes.len()].copy_from_slice(minutes);
}
