//! Dates of the calendar: a plain walk from day to day, and the calendar of `jiff_core`, which answers the same at
//! once.
ghost use Rattle.std.specs.Prelude.{◌≡◌, ◌^◌, ◌<◌, ◌≤◌, ◌↔◌, IsTrue};
ghost use Rattle.rep_fields.specs.Calendar.{is_leap_year, month_length, next_date, first_date, date_of, IsDay, IsDayOfDate};

use jiff_core::civil;
use std::marker::Model;

/// A date of the Gregorian calendar: year, month from 1 to 12 and day from 1.
#[derive(Clone, Copy, Debug, PartialEq, Eq)]
pub struct CalendarDate {
    pub year: u32,
    pub month: u32,
    pub day: u32,
}

impl Model for CalendarDate {
    ghost use Rattle.rep_fields.specs.Calendar.{Date};

    ghost Value = { Date };

    ghost view = { λ d. record { year = d.year; month = d.month; day = d.day } };

    ghost inverse = { λ d. record { year = d.year; month = d.month; day = d.day } };
}

impl CalendarDate {
    /// 1970-01-01, the day with the number 0.
    pub fn first() -> CalendarDate
        ensures { result ≡ first_date }
    {
        CalendarDate {
            year: 1970,
            month: 1,
            day: 1,
        }
    }

    /// The day after.
    pub fn next(self) -> CalendarDate
        requires { self.year < u32.MAX }
        ensures { result ≡ next_date self }
    {
        let CalendarDate { year, month, day } = self;
        if day < days_in_month(year, month) {
            CalendarDate {
                year,
                month,
                day: day + 1,
            }
        } else if month < 12 {
            CalendarDate {
                year,
                month: month + 1,
                day: 1,
            }
        } else {
            CalendarDate {
                year: year + 1,
                month: 1,
                day: 1,
            }
        }
    }

    /// The date of a day, by the number of days since 1970-01-01.
    pub(crate) fn of_day(number: u32) -> CalendarDate
        requires { IsDay number }
        ensures date { result ≡ date_of number }
        ensures year_bound { result.year ≤ 9999 }
        ensures month_bound { result.month ≤ 12 }
        ensures day_bound { result.day ≤ 31 }
    {
        let date = civil::Date::from_days_since_min(number + DAYS_BEFORE_1970);
        CalendarDate {
            year: date.year as u32,
            month: u32::from(date.month),
            day: u32::from(date.day),
        }
    }

    /// The number of days since 1970-01-01, for a date from then to 9999-12-31.
    pub(crate) fn day_number(self) -> Option<u32>
        ensures { IsDayOfDate self result }
    {
        let CalendarDate { year, month, day } = self;
        if year < 1970 || year > 9999 || month > 12 || day > 31 {
            return None;
        }
        match civil::Date::new(year as i16, month as i8, day as i8) {
            Ok(date) => Some(date.days_since_min() - DAYS_BEFORE_1970),
            Err(_) => None,
        }
    }
}

/// The days from -9999-01-01 to 1970-01-01.
const DAYS_BEFORE_1970: u32 = 4_371_587;

fn is_leap_year(year: u32) -> bool
    ensures { result ≡ is_leap_year year }
{
    year % 4 == 0 && (year % 100 != 0 || year % 400 == 0)
}

fn days_in_month(year: u32, month: u32) -> u32
    ensures { result ≡ month_length year month }
{
    match month {
        2 if is_leap_year(year) => 29,
        2 => 28,
        4 | 6 | 9 | 11 => 30,
        _ => 31,
    }
}

/// The date so many days after 1970-01-01, by that many steps to the next day. It is slow, and says plainly what the
/// numbers of days mean.
pub fn date_by_steps(days: u32) -> CalendarDate
    requires { IsDay days }
    ensures { result ≡ date_of days }
{
    let mut date = CalendarDate::first();
    for day in 0..days {
        date = date.next();
    }
    date
}
