//! Minutes as hours and minutes in two digits each.
ghost use Rattle.std.specs.Prelude.{◌≡◌, ◌/◌};
ghost use Rattle.rep_fields.specs.Decoding.{Decodes};
ghost use Rattle.rep_fields.specs.Digits.{FitsDigits};
ghost use Rattle.rep_fields.specs.Moment.{hours_text, IsMinuteOfDay};

use crate::pairs::{get_two, two_digits};

/// The minutes of a day.
pub const MINUTES_OF_DAY: u32 = 1440;

/// The minute of a day, 0 to 1439, of a time `hhmm`, a field of kind H of Portaria MTP 671/2021, annex VI. `None`
/// exactly where the text is not that of a time from 0000 to 2359.
pub fn read_time_of_day(text: &[u8]) -> Option<u32>
    ensures { Decodes IsMinuteOfDay hours_text text.now result }
{
    let Some(minute) = get_hours(text) else {
        return None;
    };
    if minute >= MINUTES_OF_DAY {
        return None;
    }
    Some(minute)
}

/// The time of a minute of a day, as `hhmm`.
pub fn write_time_of_day(minute: u32) -> [u8; 4]
    requires { IsMinuteOfDay minute }
    ensures { result ≡ hours_text minute }
{
    hours_digits(minute)
}

/// The minutes of `hhmm`, where the hours may be up to 99.
pub(crate) fn get_hours(text: &[u8]) -> Option<u32>
    ensures { Decodes (λ minutes. FitsDigits 2 (minutes / 60)) hours_text text.now result }
{
    if text.len() != 4 {
        return None;
    }
    let Some(hours) = get_two(&text[0..2]) else {
        return None;
    };
    let Some(minutes) = get_two(&text[2..4]) else {
        return None;
    };
    if minutes >= 60 {
        return None;
    }
    Some(hours * 60 + minutes)
}

/// The digits of hours and minutes.
pub(crate) fn hours_digits(minutes: u32) -> [u8; 4]
    requires { FitsDigits 2 (minutes / 60) }
    ensures { result ≡ hours_text minutes }
{
    let [h0, h1] = two_digits(minutes / 60);
    let [m0, m1] = two_digits(minutes % 60);
    [h0, h1, m0, m1]
}
