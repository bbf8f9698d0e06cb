//! Rows of fields: dates, stamps, offsets, ids, numbers and texts, and checksums and hashes.

use crate::answer::Answer;
use crate::told::Told;
use rep_fields::{
    Cpf, Day, EmployerId, RepNumber, Stamp, Text, get_a, get_n, read_decimal, read_offset,
    read_time_of_day, write_time_of_day,
};
use sha2::{Digest, Sha256};
use std::alloc::{AllocError, Global};

/// No value.
const NONE: &[u8] = b"none";

/// What the reader of a kind of field says of a text. `None` where no field has that kind.
pub(crate) fn field_answer(
    alloc: Global,
    kind: &[u8],
    text: &[u8],
) -> Result<Option<Answer>, AllocError> {
    let answer = match kind {
        b"day" => day(alloc, text)?,
        b"time" => time(alloc, text)?,
        b"offset" => offset(alloc, text)?,
        b"stamp" => stamp(alloc, text)?,
        b"loose-stamp" => loose_stamp(alloc, text)?,
        b"cpf" => cpf(alloc, text)?,
        b"employer" => employer(alloc, text)?,
        b"rep-number" => rep_number(alloc, text)?,
        b"decimal" => number(alloc, text, read_decimal(text))?,
        b"digits" => number(alloc, text, get_n(text))?,
        b"latin" => latin(alloc, text, get_a(text))?,
        b"text-4" => short_text(alloc, text)?,
        b"text-150" => long_text(alloc, text)?,
        b"crc" => checksum(alloc, text)?,
        b"sha256" => digest(alloc, text)?,
        _ => return Ok(None),
    };
    Ok(Some(answer))
}

fn day(alloc: Global, text: &[u8]) -> Result<Answer, AllocError> {
    let Some(day) = Day::read(text) else {
        return Answer::word(alloc, text, NONE);
    };
    let mut told = Told::new(alloc);
    told.number(b"day", u64::from(day.number))?;
    Answer::printed(alloc, text, told, &day.write())
}

fn time(alloc: Global, text: &[u8]) -> Result<Answer, AllocError> {
    let Some(minute) = read_time_of_day(text) else {
        return Answer::word(alloc, text, NONE);
    };
    let mut told = Told::new(alloc);
    told.number(b"minute", u64::from(minute))?;
    Answer::printed(alloc, text, told, &write_time_of_day(minute))
}

fn offset(alloc: Global, text: &[u8]) -> Result<Answer, AllocError> {
    let Some(offset) = read_offset(text) else {
        return Answer::word(alloc, text, NONE);
    };
    let mut told = Told::new(alloc);
    told.signed(b"minutes", i64::from(offset))?;
    Answer::of(alloc, text, told)
}

fn stamp(alloc: Global, text: &[u8]) -> Result<Answer, AllocError> {
    let Some(stamp) = Stamp::read(text) else {
        return Answer::word(alloc, text, NONE);
    };
    let mut told = moment(alloc, &stamp)?;
    told.number(b"day", u64::from(stamp.day().number))?;
    told.signed(b"instant", stamp.instant_minute())?;
    Answer::printed(alloc, text, told, &stamp.write())
}

fn loose_stamp(alloc: Global, text: &[u8]) -> Result<Answer, AllocError> {
    let Some(loose) = Stamp::read_loose(text) else {
        return Answer::word(alloc, text, NONE);
    };
    let mut told = moment(alloc, &loose.stamp)?;
    if loose.odd {
        told.word(b"odd")?;
    }
    Answer::of(alloc, text, told)
}

fn moment(alloc: Global, stamp: &Stamp) -> Result<Told, AllocError> {
    let mut told = Told::new(alloc);
    told.number(b"local", u64::from(stamp.local))?;
    told.signed(b"offset", i64::from(stamp.offset))?;
    Ok(told)
}

fn cpf(alloc: Global, text: &[u8]) -> Result<Answer, AllocError> {
    let Some(cpf) = Cpf::read(text) else {
        return Answer::word(alloc, text, NONE);
    };
    let mut told = Told::new(alloc);
    told.cpf(b"cpf", &cpf)?;
    Answer::printed(alloc, text, told, &cpf.write())
}

/// The first byte is the kind.
fn employer(alloc: Global, text: &[u8]) -> Result<Answer, AllocError> {
    let [kind, digits @ ..] = text else {
        return Answer::word(alloc, text, NONE);
    };
    let Some(id) = EmployerId::read(*kind, digits) else {
        return Answer::word(alloc, text, NONE);
    };
    let mut told = Told::new(alloc);
    told.employer(&id)?;
    let mut written = Vec::new(alloc);
    written.push(id.kind())?;
    written.extend_from_slice(&id.write())?;
    Answer::printed(alloc, text, told, &written)
}

fn rep_number(alloc: Global, text: &[u8]) -> Result<Answer, AllocError> {
    let Some(number) = RepNumber::read(text) else {
        return Answer::word(alloc, text, NONE);
    };
    let mut told = Told::new(alloc);
    told.word(if number.is_digits() {
        b"digits"
    } else {
        b"characters"
    })?;
    Answer::printed(alloc, text, told, number.bytes())
}

fn number(alloc: Global, text: &[u8], found: Option<u64>) -> Result<Answer, AllocError> {
    let Some(number) = found else {
        return Answer::word(alloc, text, NONE);
    };
    let mut told = Told::new(alloc);
    told.number(b"number", number)?;
    Answer::of(alloc, text, told)
}

fn latin(alloc: Global, text: &[u8], found: Option<&[u8]>) -> Result<Answer, AllocError> {
    let Some(found) = found else {
        return Answer::word(alloc, text, NONE);
    };
    let mut told = Told::new(alloc);
    told.text(b"text", found)?;
    Answer::of(alloc, text, told)
}

fn short_text(alloc: Global, text: &[u8]) -> Result<Answer, AllocError> {
    match Text::<4>::read(text) {
        Some(found) => latin(alloc, text, Some(found.bytes())),
        None => latin(alloc, text, None),
    }
}

fn long_text(alloc: Global, text: &[u8]) -> Result<Answer, AllocError> {
    match Text::<150>::read(text) {
        Some(found) => latin(alloc, text, Some(found.bytes())),
        None => latin(alloc, text, None),
    }
}

fn checksum(alloc: Global, text: &[u8]) -> Result<Answer, AllocError> {
    let [high, low] = afd_records::crc16(text).to_be_bytes();
    let mut digits = [0; 4];
    let _written = hex::encode_to_slice([high, low], &mut digits);
    Answer::word(alloc, text, &digits)
}

fn digest(alloc: Global, text: &[u8]) -> Result<Answer, AllocError> {
    let mut digits = [0; 64];
    let _written = hex::encode_to_slice(Sha256::digest(text), &mut digits);
    Answer::word(alloc, text, &digits)
}
