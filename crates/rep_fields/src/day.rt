ghost use Rattle.std.specs.Prelude.{◌≡◌, ◌≤◌, ◌↔◌, IsSome, IfSome};
ghost use Rattle.rep_fields.specs.Calendar.{IsDay, day_text};
ghost use Rattle.rep_fields.specs.Decoding.{Decodes};

use crate::calendar::CalendarDate;
use crate::pairs::{four_digits, get_four, get_two, two_digits};
use std::marker::Model;

/// The number of the last day, 9999-12-31.
pub const LAST_DAY: u32 = 2_932_896;

/// A day of the Gregorian calendar, by the days since 1970-01-01: 0 to 2,932,896, which is 9999-12-31.
#[derive(Clone, Copy, Debug, PartialEq, Eq, PartialOrd, Ord)]
pub struct Day {
    pub number: u32,
}

impl Model for Day {
    ghost use Rattle.std.specs.Prelude.{ℕ};
    ghost use Rattle.rep_fields.specs.Calendar.{IsDay};

    ghost Value = { ℕ };

    ghost view = { λ d. d.number };

    ghost invariant = { λ d. IsDay d.number };

    ghost inverse = { λ n. record { number = n } };
}

impl Day {
    /// The day with that number. `None` exactly after 9999-12-31.
    pub fn make(number: u32) -> Option<Day>
        ensures succeeds { IsSome result ↔ IsDay number }
        ensures value { IfSome result (λ day. day ≡ number) }
    {
        if number > LAST_DAY {
            return None;
        }
        Some(Day { number })
    }

    /// The day of a date `AAAA-MM-dd`, a field of kind D of Portaria MTP 671/2021, annex V. `None` exactly where the
    /// text is not that of a day from 1970-01-01 to 9999-12-31.
    pub fn read(text: &[u8]) -> Option<Day>
        ensures { Decodes IsDay day_text text.now result }
    {
        if text.len() != 10 || text[4] != b'-' || text[7] != b'-' {
            return None;
        }
        let Some(year) = get_four(&text[0..4]) else {
            return None;
        };
        let Some(month) = get_two(&text[5..7]) else {
            return None;
        };
        let Some(day) = get_two(&text[8..10]) else {
            return None;
        };
        let Some(number) = CalendarDate { year, month, day }.day_number() else {
            return None;
        };
        Some(Day { number })
    }

    /// The date, as `AAAA-MM-dd`.
    pub fn write(&self) -> [u8; 10]
        ensures text { result ≡ day_text self.now }
        ensures in_range { IsDay self.now }
    {
        let date = CalendarDate::of_day(self.number);
        let [y0, y1, y2, y3] = four_digits(date.year);
        let [m0, m1] = two_digits(date.month);
        let [d0, d1] = two_digits(date.day);
        [y0, y1, y2, y3, b'-', m0, m1, b'-', d0, d1]
    }
}
