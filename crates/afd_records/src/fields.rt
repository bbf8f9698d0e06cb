ghost use Rattle.std.specs.Prelude.{◌≡◌, ◌≤◌, ◌↔◌, [], ◌∷◌, length, IsTrue, All};
ghost use Rattle.rep_fields.specs.Decoding.{Decodes};
ghost use Rattle.rep_fields.specs.Digits.{numeral};
ghost use Rattle.rep_fields.specs.Latin.{padded, IsText};
ghost use Rattle.rep_fields.specs.Identity.{IsCpf};
ghost use Rattle.rep_fields.specs.Employer.{IsEmployerId, kind_byte, id_text};
ghost use Rattle.afd_records.specs.Record.{op_text, offline_text, IsCno, IsCollector, IsNsr, IsWrittenEvent};
ghost use Rattle.afd_records.specs.Line.{IsHashText, IsLowerHex};
ghost use Rattle.afd_records.specs.Fields.{EmployerKindField, IsAny, IsField};

use crate::record::Op;
use rep_fields::{CPF_DIGITS, Cpf, EmployerId, MOST_DIGITS, Text, get_n};

// The number of a record in its nine digits.
pub(crate) fn read_nsr(field: &[u8]) -> Option<u32>
    requires { length field.now ≡ 9 }
    ensures { Decodes IsNsr (numeral 9) field.now result }
{
    let Some(number) = get_n(field) else {
        return None;
    };
    if number == 0 {
        return None;
    }
    Some(number as u32)
}

// Whether the byte says which kind of employer's id follows.
pub(crate) fn is_employer_kind(field: &[u8]) -> bool
    requires { length field.now ≡ 1 }
    ensures { IsTrue result ↔ IsField EmployerKindField [] field.now }
{
    matches!(field, b"1" | b"2")
}

// An employer's id, of the kind's byte and fourteen digits.
pub(crate) fn read_id(field: &[u8]) -> Option<EmployerId>
    requires { length field.now ≡ 15 }
    ensures { Decodes IsEmployerId (λ id. kind_byte id ∷ id_text id) field.now result }
{
    EmployerId::read(field[0], &field[1..])
}

// A CNO or CAEPF in fourteen digits; 0 for none.
pub(crate) fn read_cno(field: &[u8]) -> Option<u64>
    requires { length field.now ≡ 14 }
    ensures { Decodes IsCno (numeral 14) field.now result }
{
    get_n(field)
}

// A CPF in `N` digits, with zeros in front.
pub(crate) fn read_cpf<const N: usize>(field: &[u8]) -> Option<Cpf>
    requires least { CPF_DIGITS ≤ N }
    requires most { N ≤ MOST_DIGITS }
    requires size { length field.now ≡ N }
    ensures { Decodes IsCpf (numeral N) field.now result }
{
    Cpf::read_field(field)
}

// A text that fills the field with spaces behind it.
pub(crate) fn read_text<const N: usize>(field: &[u8]) -> Option<Text<N>>
    requires { length field.now ≡ N }
    ensures { Decodes (IsText N) (padded N) field.now result }
{
    Text::read(field)
}

// The letter of an operation.
pub(crate) fn read_op(field: &[u8]) -> Option<Op>
    requires { length field.now ≡ 1 }
    ensures { Decodes IsAny op_text field.now result }
{
    match field {
        b"I" => Some(Op::Include),
        b"A" => Some(Op::Amend),
        b"E" => Some(Op::Exclude),
        _ => None,
    }
}

// The code of an event that the recorder writes.
pub(crate) fn read_event(field: &[u8]) -> Option<u8>
    requires { length field.now ≡ 2 }
    ensures { Decodes IsWrittenEvent (numeral 2) field.now result }
{
    let Some(code) = get_n(field) else {
        return None;
    };
    if code != 7 && code != 8 {
        return None;
    }
    Some(code as u8)
}

// The number of a collector.
pub(crate) fn read_collector(field: &[u8]) -> Option<u8>
    requires { length field.now ≡ 2 }
    ensures { Decodes IsCollector (numeral 2) field.now result }
{
    let Some(collector) = get_n(field) else {
        return None;
    };
    if collector == 0 || collector > 5 {
        return None;
    }
    Some(collector as u8)
}

// Whether a clocking was kept for a while.
pub(crate) fn read_offline(field: &[u8]) -> Option<bool>
    requires { length field.now ≡ 1 }
    ensures { Decodes IsAny offline_text field.now result }
{
    match field {
        b"0" => Some(false),
        b"1" => Some(true),
        _ => None,
    }
}

// A hash in 64 lower-case hexadecimal digits.
pub(crate) fn read_hash(field: &[u8]) -> Option<[u8; 64]>
    requires { length field.now ≡ 64 }
    ensures { Decodes IsHashText (λ hash. hash) field.now result }
{
    if !all_lower_hex(field) {
        return None;
    }
    let mut hash = [0; 64];
    hash.copy_from_slice(field);
    Some(hash)
}

// Looks at each byte, so that the loop has no branch.
fn all_lower_hex(bytes: &[u8]) -> bool
    ensures { IsTrue result ↔ All IsLowerHex bytes.now }
{
    let mut all = true;
    for byte in bytes {
        all &= is_lower_hex(*byte);
    }
    all
}

fn is_lower_hex(byte: u8) -> bool
    ensures { IsTrue result ↔ IsLowerHex byte }
{
    matches!(byte, b'0'..=b'9' | b'a'..=b'f')
}
