// Fields as a lenient reader takes them.
ghost use Rattle.std.specs.Prelude.{◌≡◌, ◌↔◌, length, IsTrue, All};
ghost use Rattle.rep_fields.specs.Decoding.{Decodes, DecodesBy};
ghost use Rattle.rep_fields.specs.Digits.{numeral};
ghost use Rattle.rep_fields.specs.Moment.{IsMoment};
ghost use Rattle.afd_records.specs.Record.{IsCno};
ghost use Rattle.afd_records.specs.Lenient.{IsStampText, IsCnoText, IsLooseEvent, IsHexDigit, IsLooseHash};

use crate::line::HASH_LEN;
use rep_fields::{Stamp, get_n};

// A CNO or CAEPF that is absent.
const BLANK: &[u8; 14] = b"              ";

// The greatest code of an event of a recorder of any kind.
const LAST_EVENT: u64 = 8;

// Whether the field has these very characters.
pub(crate) fn is_literal(field: &[u8], text: &[u8]) -> bool
    ensures { IsTrue result ↔ (field.now ≡ text.now) }
{
    field == text
}

// A stamp that was read, and whether its text is another than the strict one.
#[derive(Clone, Copy)]
pub(crate) struct FoundStamp {
    pub(crate) stamp: Stamp,
    pub(crate) odd: bool,
}

pub(crate) fn read_stamp(field: &[u8]) -> Option<FoundStamp>
    ensures { DecodesBy (λ found. IsMoment found.stamp) (λ found. IsStampText found.stamp found.odd)
        field.now result }
{
    let Some(loose) = Stamp::read_loose(field) else {
        return None;
    };
    Some(FoundStamp {
        stamp: loose.stamp,
        odd: loose.odd,
    })
}

// The same, where the field mostly has the bytes of a stamp that was read: then that is the answer.
pub(crate) fn read_stamp_again(field: &[u8], read: &[u8], found: &FoundStamp) -> Option<FoundStamp>
    requires in_range { IsMoment found.now.stamp }
    requires text { IsStampText found.now.stamp found.now.odd read.now }
    ensures { DecodesBy (λ found. IsMoment found.stamp) (λ found. IsStampText found.stamp found.odd)
        field.now result }
{
    if is_literal(field, read) {
        return Some(*found);
    }
    read_stamp(field)
}

// A CNO or CAEPF in fourteen digits; 0 for none, which may be blank.
pub(crate) fn read_loose_cno(field: &[u8]) -> Option<u64>
    requires { length field.now ≡ 14 }
    ensures { DecodesBy IsCno IsCnoText field.now result }
{
    if is_literal(field, BLANK) {
        return Some(0);
    }
    get_n(field)
}

// The code of an event of a recorder of any kind.
pub(crate) fn read_loose_event(field: &[u8]) -> Option<u8>
    requires { length field.now ≡ 2 }
    ensures { Decodes IsLooseEvent (numeral 2) field.now result }
{
    let Some(code) = get_n(field) else {
        return None;
    };
    if code == 0 || code > LAST_EVENT {
        return None;
    }
    Some(code as u8)
}

// A hash in 64 hexadecimal digits of either case.
pub(crate) fn read_loose_hash(field: &[u8]) -> Option<[u8; HASH_LEN]>
    requires { length field.now ≡ HASH_LEN }
    ensures { Decodes IsLooseHash (λ hash. hash) field.now result }
{
    if !all_hex(field) {
        return None;
    }
    let mut hash = [0; HASH_LEN];
    hash.copy_from_slice(field);
    Some(hash)
}

// Looks at each byte, so that the loop has no branch.
fn all_hex(bytes: &[u8]) -> bool
    ensures { IsTrue result ↔ All IsHexDigit bytes.now }
{
    let mut all = true;
    for byte in bytes {
        all &= is_hex_digit(*byte);
    }
    all
}

fn is_hex_digit(byte: u8) -> bool
    ensures { IsTrue result ↔ IsHexDigit byte }
{
    matches!(byte, b'0'..=b'9' | b'a'..=b'f' | b'A'..=b'F')
}
