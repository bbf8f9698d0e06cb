//! Numbers of two and of four digits, as dates and times have them.
ghost use Rattle.std.specs.Prelude.{◌≡◌, length};
ghost use Rattle.rep_fields.specs.Decoding.{Decodes};
ghost use Rattle.rep_fields.specs.Digits.{numeral, FitsDigits};

use crate::digits::{get_n, put_n};

/// The number in a field of two digits.
pub(crate) fn get_two(field: &[u8]) -> Option<u32>
    requires { length field.now ≡ 2 }
    ensures { Decodes (FitsDigits 2) (numeral 2) field.now result }
{
    match get_n(field) {
        Some(value) => Some(value as u32),
        None => None,
    }
}

/// The number in a field of four digits.
pub(crate) fn get_four(field: &[u8]) -> Option<u32>
    requires { length field.now ≡ 4 }
    ensures { Decodes (FitsDigits 4) (numeral 4) field.now result }
{
    match get_n(field) {
        Some(value) => Some(value as u32),
        None => None,
    }
}

/// The two digits of a number.
pub(crate) fn two_digits(value: u32) -> [u8; 2]
    requires { FitsDigits 2 value }
    ensures { result ≡ numeral 2 value }
{
    let mut digits = [0; 2];
    put_n(&mut digits, u64::from(value));
    digits
}

/// The four digits of a number.
pub(crate) fn four_digits(value: u32) -> [u8; 4]
    requires { FitsDigits 4 value }
    ensures { result ≡ numeral 4 value }
{
    let mut digits = [0; 4];
    put_n(&mut digits, u64::from(value));
    digits
}
