ghost use Rattle.std.specs.Prelude.{◌≡◌, ◌≤◌, ◌↔◌, IsSome, IfSome};
ghost use Rattle.rep_fields.specs.Decoding.{Decodes, DecodesBy};
ghost use Rattle.rep_fields.specs.Calendar.{IsDay};
ghost use Rattle.rep_fields.specs.Moment.{IsMoment, IsOffset, first_reading, last_reading, moment_text, local_text, instant_of, day_of, moment_at, IsStampAt, IsLenientlyWritten, IsLocalTime, IsLenientMoment, IsLooseOffset, loose_offset_text};

use crate::day::Day;
use crate::offset::{GREATEST_OFFSET, offset_digits, read_offset};
use crate::pairs::{get_two, two_digits};
use crate::time_of_day::MINUTES_OF_DAY;
use std::marker::Model;

/// The last local minute, 9999-12-31T23:59.
pub const LAST_LOCAL: u32 = 4_223_371_679;

/// A local minute with the offset of its clock from UTC.
#[derive(Clone, Copy, Debug, PartialEq, Eq)]
pub struct Stamp {
    /// Minutes since 1970-01-01T00:00 of the local time, 0 to 4,223,371,679.
    pub local: u32,
    /// How many minutes the local time is ahead of UTC, -840 to 840.
    pub offset: i16,
}

impl Model for Stamp {
    ghost use Rattle.rep_fields.specs.Moment.{Moment, IsMoment};

    ghost Value = { Moment };

    ghost view = { λ s. record { local = s.local; offset = s.offset } };

    ghost invariant = { λ s. IsMoment (record { local = s.local; offset = s.offset }) };

    ghost inverse = { λ m. record { local = m.local; offset = m.offset } };
}

/// A stamp that a lenient reader found.
#[derive(Clone, Copy, Debug, PartialEq, Eq)]
pub struct Loose {
    /// The stamp, without its seconds.
    pub stamp: Stamp,
    /// Whether the text isn't the strict one: its seconds aren't 00, or its offset is `-0000`.
    pub odd: bool,
}

impl Model for Loose {
    ghost use Rattle.rep_fields.specs.Moment.{Lenient};

    ghost Value = { Lenient };

    ghost view = { λ l. record { moment = l.stamp; odd = l.odd } };

    ghost inverse = { λ l. record { stamp = l.moment; odd = l.odd } };
}

impl Stamp {
    /// The stamp of a local minute at an offset. `None` exactly out of range.
    pub fn make(local: u32, offset: i16) -> Option<Stamp>
        ensures succeeds { IsSome result ↔ IsMoment (record { local = local; offset = offset }) }
        ensures value { IfSome result (λ s. s ≡ record { local = local; offset = offset }) }
    {
        if local > LAST_LOCAL || u32::from(offset.unsigned_abs()) > GREATEST_OFFSET {
            return None;
        }
        Some(Stamp { local, offset })
    }

    /// The stamp of a minute since 1970-01-01T00:00 UTC, at an offset. `None` exactly where its local minute or the
    /// offset is out of range.
    pub fn at(instant: u32, offset: i16) -> Option<Stamp>
        ensures stamp { IsStampAt instant offset result }

        // Each reading of a clock, from 840 to 4,223,370,839, has a stamp at each offset.
        ensures reading { first_reading ≤ instant → instant ≤ last_reading → IsOffset offset
            → result ≡ Some (moment_at instant offset) }
    {
        let local = i64::from(instant) + i64::from(offset);
        if local < 0 || local > i64::from(LAST_LOCAL) {
            return None;
        }
        Stamp::make(local as u32, offset)
    }

    /// The stamp of a text `AAAA-MM-ddThh:mm:00ZZZZZ`, a field of kind DH of Portaria MTP 671/2021, annex V. `None`
    /// exactly where the text is not that of a stamp.
    pub fn read(text: &[u8]) -> Option<Stamp>
        ensures { Decodes IsMoment moment_text text.now result }
    {
        if text.len() != 24 {
            return None;
        }
        let Some((local, seconds)) = get_local(&text[0..19]) else {
            return None;
        };
        let Some(offset) = read_offset(&text[19..24]) else {
            return None;
        };
        if seconds != 0 {
            return None;
        }
        Some(Stamp { local, offset })
    }

    /// The stamp of a text as `read` takes it, or with other seconds or the offset `-0000`, by this project's own
    /// leniency on reading. `None` exactly where the text is no such one.
    pub fn read_loose(text: &[u8]) -> Option<Loose>
        ensures { DecodesBy IsLenientMoment IsLenientlyWritten text.now result }
    {
        if text.len() != 24 {
            return None;
        }
        let Some((local, seconds)) = get_local(&text[0..19]) else {
            return None;
        };
        if seconds >= 60 {
            return None;
        }
        let Some((offset, minus_zero)) = get_loose_offset(&text[19..24]) else {
            return None;
        };
        Some(Loose {
            stamp: Stamp { local, offset },
            odd: seconds != 0 || minus_zero,
        })
    }

    /// The text, `AAAA-MM-ddThh:mm:00ZZZZZ`.
    pub fn write(&self) -> [u8; 24]
        ensures text { result ≡ moment_text self.now }
        ensures in_range { IsMoment self.now }
    {
        let [d0, d1, d2, d3, d4, d5, d6, d7, d8, d9] = self.day().write();
        let [h0, h1] = two_digits(self.local % MINUTES_OF_DAY / 60);
        let [m0, m1] = two_digits(self.local % 60);
        let [z0, z1, z2, z3, z4] = offset_digits(self.offset);
        [
            d0, d1, d2, d3, d4, d5, d6, d7, d8, d9, b'T', h0, h1, b':', m0, m1, b':', b'0', b'0',
            z0, z1, z2, z3, z4,
        ]
    }

    /// The local day.
    pub fn day(&self) -> Day
        ensures day { result ≡ day_of self.now }
        ensures in_range { IsDay result }
    {
        Day {
            number: self.local / MINUTES_OF_DAY,
        }
    }

    /// Minutes since 1970-01-01T00:00 UTC.
    pub fn instant_minute(&self) -> i64
        ensures instant { result ≡ instant_of self.now }
        ensures in_range { IsMoment self.now }
    {
        i64::from(self.local) - i64::from(self.offset)
    }
}

/// The local minute and the seconds of a text `AAAA-MM-ddThh:mm:ss`.
fn get_local(text: &[u8]) -> Option<(u32, u32)>
    ensures { Decodes IsLocalTime (λ time. local_text time.0 time.1) text.now result }
{
    if text.len() != 19 || text[10] != b'T' || text[13] != b':' || text[16] != b':' {
        return None;
    }
    let Some(day) = Day::read(&text[0..10]) else {
        return None;
    };
    let Some(hours) = get_two(&text[11..13]) else {
        return None;
    };
    let Some(minutes) = get_two(&text[14..16]) else {
        return None;
    };
    let Some(seconds) = get_two(&text[17..19]) else {
        return None;
    };
    if hours >= 24 || minutes >= 60 {
        return None;
    }
    Some((day.number * MINUTES_OF_DAY + hours * 60 + minutes, seconds))
}

/// The offset of a text, and whether it is `-0000`.
fn get_loose_offset(text: &[u8]) -> Option<(i16, bool)>
    ensures { Decodes IsLooseOffset (λ loose. loose_offset_text loose.0 loose.1) text.now result }
{
    match read_offset(text) {
        Some(offset) => Some((offset, false)),
        None if text == b"-0000".as_slice() => Some((0, true)),
        None => None,
    }
}
