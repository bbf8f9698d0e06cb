//! Printable characters of ISO 8859-1, and fields of kind A of Portaria MTP 671/2021, annex V.
ghost use Rattle.std.specs.Prelude.{◌≡◌, ◌≤◌, ◌↔◌, length, All, IsSome, IsTrue};
ghost use Rattle.std.specs.Option.{option_copied};
ghost use Rattle.rep_fields.specs.Decoding.{DecodesBy};
ghost use Rattle.rep_fields.specs.Latin.{IsLatin, IsText, IsFilled, EndsInNoSpace, padded};

const SPACE: u8 = b' ';

/// Whether the byte is a printable character of ISO 8859-1: 0x20 to 0x7E or 0xA0 to 0xFF.
pub fn is_latin(byte: u8) -> bool
    ensures { IsTrue result ↔ IsLatin byte }
{
    matches!(byte, 0x20..=0x7E | 0xA0..=0xFF)
}

/// Fills the field with the text and spaces behind it.
pub fn put_a(out: &mut [u8], text: &[u8])
    requires fits { length text.now ≤ length out.old }
    ensures { out.new ≡ padded (length out.old) text.now }
{
    out[..text.len()].copy_from_slice(text);
    out[text.len()..].fill(SPACE);
}

/// The text that stands in a field, without the spaces at its end. `None` exactly where a byte isn't Latin.
pub fn get_a(field: &[u8]) -> Option<&[u8]>
    ensures latin { IsSome result ↔ All IsLatin field.now }
    ensures read { DecodesBy (IsText (length field.now)) IsFilled field.now (option_copied result) }
{
    if !all_latin(field) {
        return None;
    }
    Some(trimmed(field))
}

// Looks at each byte, so that the loop has no branch.
fn all_latin(bytes: &[u8]) -> bool
    ensures { IsTrue result ↔ All IsLatin bytes.now }
{
    let mut all = true;
    for byte in bytes {
        all &= is_latin(*byte);
    }
    all
}

// The bytes without the spaces at their end.
fn trimmed(bytes: &[u8]) -> &[u8]
    ensures filled { IsFilled result.now bytes.now }
    ensures trimmed { EndsInNoSpace result.now }
{
    let mut len = bytes.len();
    while len > 0 && bytes[len - 1] == SPACE {
        len -= 1;
    }
    &bytes[..len]
}
