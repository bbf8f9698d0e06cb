//! How far a clock is ahead of UTC, as `+hhmm` or `-hhmm`.
ghost use Rattle.std.specs.Prelude.{◌≡◌};
ghost use Rattle.rep_fields.specs.Decoding.{Decodes};
ghost use Rattle.rep_fields.specs.Moment.{offset_text, IsOffset, IsSignedOffset};

use crate::time_of_day::{get_hours, hours_digits};

/// The greatest offset from UTC, in minutes: 14 hours.
pub const GREATEST_OFFSET: u32 = 840;

/// The minutes, -840 to 840, of an offset from UTC as a stamp has it: a sign, two digits of hours and two of minutes.
/// `None` exactly where the text is not that of an offset. Zero is `+0000` alone.
pub fn read_offset(text: &[u8]) -> Option<i16>
    ensures { Decodes IsOffset offset_text text.now result }
{
    if text.len() != 5 {
        return None;
    }
    let Some(minutes) = get_hours(&text[1..5]) else {
        return None;
    };
    signed_offset(text[0], minutes)
}

/// The offset of a sign and minutes.
fn signed_offset(sign: u8, minutes: u32) -> Option<i16>
    ensures { IsSignedOffset sign minutes result }
{
    if minutes > GREATEST_OFFSET {
        return None;
    }
    match sign {
        b'+' => Some(minutes as i16),
        b'-' if minutes != 0 => Some(-(minutes as i16)),
        _ => None,
    }
}

/// The digits of an offset, with its sign.
pub(crate) fn offset_digits(offset: i16) -> [u8; 5]
    requires { IsOffset offset }
    ensures { result ≡ offset_text offset }
{
    let sign = if offset < 0 { b'-' } else { b'+' };
    let [h0, h1, m0, m1] = hours_digits(u32::from(offset.unsigned_abs()));
    [sign, h0, h1, m0, m1]
}
