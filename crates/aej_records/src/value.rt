//! What stands in one field of a line.
ghost use Rattle.std.specs.Prelude.{◌≡◌, ◌∷◌, [], ◌≤◌, ◌^◌, ◌⊎◌, ◌↔◌, codes, decimal, IsTrue, All};
ghost use Rattle.rep_fields.specs.Decoding.{Decodes, DecodesBy};
ghost use Rattle.rep_fields.specs.Digits.{FitsDigits, IsDigitByte};
ghost use Rattle.rep_fields.specs.Latin.{IsFilled};
ghost use Rattle.rep_fields.specs.Moment.{IsMoment, IsMinuteOfDay, hours_text};
ghost use Rattle.rep_fields.specs.Employer.{IsEmployerId};
ghost use Rattle.aej_records.specs.Line.{IsBetween, IsId, IsPair, IsName, IsWorks, AreDigits, IsMarkLetter, IsSourceLetter};
ghost use Rattle.aej_records.specs.Text.{type_text};
ghost use Rattle.aej_records.specs.Grammar.{IsNumeralText, IsIdText, IsPairText, IsStampText, IsOwnerKind, IsOwnerText};

use crate::kind::LineType;
use rep_fields::{Cpf, EmployerId, Stamp, Text, get_n, read_decimal, read_time_of_day};

/// The most digits of the number of an employment or a recorder.
const ID_DIGITS: usize = 9;

/// The most digits of the number of a pair.
const PAIR_DIGITS: usize = 3;

/// The byte of a CNPJ's kind.
const CNPJ_KIND: u8 = b'1';

/// The byte of a CPF's kind.
const CPF_KIND: u8 = b'2';

/// The type of a line, by its first field.
pub fn read_type(text: &[u8]) -> Option<LineType>
    ensures { Decodes (λ _. Unit {0}) type_text text.now result }
{
    if text == b"01".as_slice() {
        return Some(LineType::Head);
    }
    if text == b"02".as_slice() {
        return Some(LineType::Rep);
    }
    if text == b"03".as_slice() {
        return Some(LineType::Link);
    }
    if text == b"04".as_slice() {
        return Some(LineType::Schedule);
    }
    if text == b"05".as_slice() {
        return Some(LineType::Mark);
    }
    if text == b"06".as_slice() {
        return Some(LineType::Registration);
    }
    if text == b"07".as_slice() {
        return Some(LineType::Absence);
    }
    if text == b"08".as_slice() {
        return Some(LineType::Program);
    }
    if text == b"99".as_slice() {
        return Some(LineType::Counts);
    }
    None
}

/// The number of an employment or a recorder: 1 to 999,999,999 in at most nine digits, with zeros in front or not.
pub fn read_id(text: &[u8]) -> Option<u32>
    ensures { DecodesBy IsId IsIdText text.now result }
{
    let Some(id) = read_numeral(text, ID_DIGITS) else {
        return None;
    };
    if id == 0 {
        return None;
    }
    Some(id as u32)
}

/// The number of a pair: 1 to 999 in at most three digits, with zeros in front or not.
pub fn read_pair(text: &[u8]) -> Option<u16>
    ensures { DecodesBy IsPair IsPairText text.now result }
{
    let Some(pair) = read_numeral(text, PAIR_DIGITS) else {
        return None;
    };
    if pair == 0 {
        return None;
    }
    Some(pair as u16)
}

// A number in 1 to `most` digits, with zeros in front or not.
fn read_numeral(text: &[u8], most: usize) -> Option<u64>
    requires { most ≤ 9 }
    ensures { DecodesBy (FitsDigits most) (IsNumeralText most) text.now result }
{
    if text.len() > most {
        return None;
    }
    get_n(text)
}

/// A number from `least` to `most` in decimal, without zeros in front.
pub fn read_number(text: &[u8], least: u32, most: u32) -> Option<u32>
    ensures { Decodes (IsBetween least most) decimal text.now result }
{
    let Some(number) = read_decimal(text) else {
        return None;
    };
    if number < u64::from(least) || number > u64::from(most) {
        return None;
    }
    Some(number as u32)
}

/// A code from 1 to `most`.
pub fn read_code(text: &[u8], most: u8) -> Option<u8>
    ensures { Decodes (IsBetween 1 most) decimal text.now result }
{
    let Some(code) = read_number(text, 1, u32::from(most)) else {
        return None;
    };
    Some(code as u8)
}

/// How many lines there are of a type: 0 to 999,999,999.
pub fn read_count(text: &[u8]) -> Option<u32>
    ensures { Decodes (IsBetween 0 999999999) decimal text.now result }
{
    read_number(text, 0, 999_999_999)
}

/// The byte of the kind of an owner's id: `1` for a CNPJ, `2` for a CPF.
pub fn read_owner_kind(text: &[u8]) -> Option<u8>
    ensures { Decodes IsOwnerKind (λ kind. kind ∷ []) text.now result }
{
    if text == b"1".as_slice() {
        return Some(CNPJ_KIND);
    }
    if text == b"2".as_slice() {
        return Some(CPF_KIND);
    }
    None
}

/// The id of an owner of this kind: the 14 digits of a CNPJ, or the 11 of a CPF.
pub fn read_owner_id(kind: u8, text: &[u8]) -> Option<EmployerId>
    ensures { DecodesBy IsEmployerId (IsOwnerText (kind ∷ [])) text.now result }
{
    match kind {
        CNPJ_KIND => EmployerId::read(kind, text),
        CPF_KIND => {
            let Some(cpf) = Cpf::read(text) else {
                return None;
            };
            Some(EmployerId::Person(cpf))
        }
        _ => None,
    }
}

/// A CAEPF or CNO, without the spaces at its end: up to 14 digits, or none.
pub fn read_works(text: &[u8]) -> Option<Text<14>>
    ensures { DecodesBy IsWorks IsFilled text.now result }
{
    let Some(works) = Text::read(text) else {
        return None;
    };
    if !are_digits(works.bytes()) {
        return None;
    }
    Some(works)
}

// Whether each byte is a decimal digit.
fn are_digits(text: &[u8]) -> bool
    ensures { IsTrue result ↔ AreDigits text.now }
{
    text.iter().all(|byte| matches!(*byte, b'0'..=b'9'))
}

/// A text of 1 to `N` bytes, without the spaces at its end.
pub fn read_name<const N: usize>(text: &[u8]) -> Option<Text<N>>
    ensures { DecodesBy (IsName N) IsFilled text.now result }
{
    let Some(name) = Text::read(text) else {
        return None;
    };
    if name.is_empty() {
        return None;
    }
    Some(name)
}

/// A stamp, whose seconds may be from 00 to 59 and whose offset may be `-0000`.
pub fn read_stamp(text: &[u8]) -> Option<Stamp>
    ensures { DecodesBy IsMoment IsStampText text.now result }
{
    let Some(loose) = Stamp::read_loose(text) else {
        return None;
    };
    Some(loose.stamp)
}

/// A minute of the day, `hhmm`.
pub fn read_time(text: &[u8]) -> Option<u32>
    ensures { Decodes IsMinuteOfDay hours_text text.now result }
{
    read_time_of_day(text)
}

/// The version of the file's layout, `001`.
pub fn read_version(text: &[u8]) -> Option<()>
    ensures { Decodes (λ _. Unit {0}) (λ _. codes "001") text.now result }
{
    if text == b"001".as_slice() {
        Some(())
    } else {
        None
    }
}

/// The letter of a mark: `E`, `S` or `D`.
pub fn read_mark_letter(text: &[u8]) -> Option<u8>
    ensures { Decodes IsMarkLetter (λ mark. mark ∷ []) text.now result }
{
    match text {
        [letter @ (b'E' | b'S' | b'D')] => Some(*letter),
        _ => None,
    }
}

/// The letter of a mark's source: `O`, `I`, `P`, `X` or `T`.
pub fn read_source_letter(text: &[u8]) -> Option<u8>
    ensures { Decodes IsSourceLetter (λ source. source ∷ []) text.now result }
{
    match text {
        [letter @ (b'O' | b'I' | b'P' | b'X' | b'T')] => Some(*letter),
        _ => None,
    }
}
