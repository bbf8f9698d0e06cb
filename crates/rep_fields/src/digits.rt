//! Numbers of a fixed width: fields of kind N of Portaria MTP 671/2021, annex V.
ghost use Rattle.std.specs.Prelude.{◌≡◌, ◌≤◌, length, IsSome};
ghost use Rattle.rep_fields.specs.Decoding.{Decodes};
ghost use Rattle.rep_fields.specs.Digits.{numeral, FitsDigits, IsDigitCount};

/// The most digits that a field of numbers may have: so many fit 64 bits.
pub const MOST_DIGITS: usize = 19;

/// Fills the field with the number in decimal digits, with zeros in front.
pub fn put_n(out: &mut [u8], value: u64)
    requires width { length out.old ≤ MOST_DIGITS }
    requires fits { FitsDigits (length out.old) value }
    ensures { out.new ≡ numeral (length out.old) value }
{
    let mut rest = value;
    for place in (0..out.len()).rev() {
        out[place] = b'0' + (rest % 10) as u8;
        rest /= 10;
    }
}

/// The number that stands in a field of 1 to 19 decimal digits. `None` exactly where the field has another length or
/// another byte.
pub fn get_n(field: &[u8]) -> Option<u64>
    ensures width { IsSome result → IsDigitCount (length field.now) }
    ensures read { IsDigitCount (length field.now)
        → Decodes (FitsDigits (length field.now)) (numeral (length field.now)) field.now result }
{
    if field.is_empty() || field.len() > MOST_DIGITS {
        return None;
    }
    let mut value: u64 = 0;
    let mut all_digits = true;
    for byte in field {
        let digit = byte.wrapping_sub(b'0');
        all_digits &= digit < 10;
        value = value.wrapping_mul(10).wrapping_add(u64::from(digit));
    }
    all_digits.then_some(value)
}
