ghost use Rattle.std.specs.Prelude.{◌≡◌, ◌≤◌, ◌↔◌, ◌⊎◌, decimal, codes, IsTrue};
ghost use Rattle.rep_fields.specs.Calendar.{IsDay, day_text};
ghost use Rattle.rep_fields.specs.Decoding.{Decodes, DecodesBy};
ghost use Rattle.rep_fields.specs.Digits.{numeral};
ghost use Rattle.rep_fields.specs.Latin.{IsFilled};
ghost use Rattle.rep_fields.specs.Employer.{IsEmployerId};
ghost use Rattle.afd_records.specs.Record.{IsCno, IsWrittenEvent, op_text};
ghost use Rattle.rep_wire.specs.Request.{IsOrigin, IsSeq};
ghost use Rattle.rep_wire.specs.LaneGrammar.{last_kind, IsCnoText, IsIdText, IsNameOfEmployer, IsNameOfWorker};

use afd_records::Op;
use rep_fields::{Cpf, Day, EmployerId, Text, get_n, read_decimal};

/// The greatest number of an origin.
const LAST_ORIGIN: u64 = 65_535;

/// The greatest number that an origin gives to a request.
const LAST_SEQ: u64 = 999_999_999_999;

/// The greatest kind of a lane.
const LAST_KIND: u64 = 5;

/// How many digits the kind of a lane has.
const KIND_DIGITS: usize = 2;

/// The most digits of a CNO or CAEPF.
const MOST_CNO_DIGITS: usize = 14;

/// Reads the number of an origin: 1 to 65,535 without zeros in front.
pub fn read_origin(text: &[u8]) -> Option<u16>
    ensures { Decodes IsOrigin decimal text.now result }
{
    let origin = read_decimal(text)?;
    if origin == 0 || origin > LAST_ORIGIN {
        return None;
    }
    Some(origin as u16)
}

/// Reads the kind of a lane: two digits, 00 to 05.
pub fn read_kind(text: &[u8]) -> Option<u8>
    ensures { Decodes (λ kind. kind ≤ last_kind) (numeral 2) text.now result }
{
    if text.len() != KIND_DIGITS {
        return None;
    }
    let kind = get_n(text)?;
    if kind > LAST_KIND {
        return None;
    }
    Some(kind as u8)
}

/// Reads a sequence number: 1 to 999,999,999,999 without zeros in front.
pub fn read_seq(text: &[u8]) -> Option<u64>
    ensures { Decodes IsSeq decimal text.now result }
{
    let seq = read_decimal(text)?;
    if seq == 0 || seq > LAST_SEQ {
        return None;
    }
    Some(seq)
}

/// Reads a CNO or CAEPF: no digit, or up to 14.
pub fn read_cno(text: &[u8]) -> Option<u64>
    ensures { DecodesBy IsCno IsCnoText text.now result }
{
    if text.is_empty() {
        return Some(0);
    }
    if text.len() > MOST_CNO_DIGITS {
        return None;
    }
    get_n(text)
}

/// Whether the field is the kind of an employer's id, `1` or `2`.
pub fn is_employer_kind(text: &[u8]) -> bool
    ensures { IsTrue result ↔ ((text.now ≡ codes "1") ⊎ (text.now ≡ codes "2")) }
{
    text == b"1".as_slice() || text == b"2".as_slice()
}

/// Reads the id of an employer, 14 digits of a CNPJ behind the kind `1` and 11 of a CPF behind `2`.
pub fn read_id(kind: &[u8], text: &[u8]) -> Option<EmployerId>
    ensures { DecodesBy IsEmployerId (IsIdText kind.now) text.now result }
{
    if kind == b"1".as_slice() {
        return EmployerId::read(b'1', text);
    }
    if kind == b"2".as_slice() {
        let cpf = Cpf::read(text)?;
        return Some(EmployerId::Person(cpf));
    }
    None
}

/// Reads the name of an employer, without the spaces at its end: 1 to 150 bytes.
pub fn read_employer_name(text: &[u8]) -> Option<Text<150>>
    ensures { DecodesBy IsNameOfEmployer IsFilled text.now result }
{
    let name = Text::read(text)?;
    if name.is_empty() { None } else { Some(name) }
}

/// Reads an operation on a worker.
pub fn read_op(text: &[u8]) -> Option<Op>
    ensures { Decodes (λ _. Unit {0}) op_text text.now result }
{
    if text == b"I".as_slice() {
        return Some(Op::Include);
    }
    if text == b"A".as_slice() {
        return Some(Op::Amend);
    }
    if text == b"E".as_slice() {
        return Some(Op::Exclude);
    }
    None
}

/// Reads the name of a worker, without the spaces at its end: at most 52 bytes, and at least one but for a worker who
/// is excluded.
pub fn read_worker_name(op: Op, text: &[u8]) -> Option<Text<52>>
    ensures { DecodesBy (IsNameOfWorker op) IsFilled text.now result }
{
    let name = Text::read(text)?;
    match op {
        Op::Exclude => Some(name),
        Op::Include | Op::Amend => {
            if name.is_empty() {
                return None;
            }
            Some(name)
        }
    }
}

/// Reads the code of an event: `07` or `08`.
pub fn read_event_code(text: &[u8]) -> Option<u8>
    ensures { Decodes IsWrittenEvent (numeral 2) text.now result }
{
    if text == b"07".as_slice() {
        return Some(7);
    }
    if text == b"08".as_slice() {
        return Some(8);
    }
    None
}

/// Reads the last day of a period that begins on this day, and is none before it.
pub fn read_last_day(first: &Day, text: &[u8]) -> Option<Day>
    ensures { Decodes (λ day. IsDay day × (first.now ≤ day)) day_text text.now result }
{
    let last = Day::read(text)?;
    if last.number < first.number {
        return None;
    }
    Some(last)
}
