//! Rows of the lines of an AFD, of its hash chain, and of whole texts.

use crate::answer::Answer;
use crate::fault::Fault;
use crate::library::Library;
use crate::line::{Line, cut_at};
use crate::told::Told;
use crate::written::{number_of, push_line};
use afd_chain::{PAYLOAD_LEN, link, verify};
use afd_read::{Afd, AfdFault, read_afd};
use afd_records::{
    Body, CLOCKING_LEN, HASH_LEN, Head, Notes, Op, ReadLine, print, print_trailer, read, read_head,
    read_loose, read_trailer,
};
use rep_io::MemSource;
use std::alloc::{AllocError, Global};

/// The most bytes of a line of an AFD that are shown.
const MOST_SHOWN: usize = 40;

/// What the reader of a kind of AFD line says of a record. `None` where no such line has that kind.
pub(crate) fn record_answer(
    alloc: Global,
    kind: &[u8],
    text: &[u8],
) -> Result<Option<Answer>, AllocError> {
    let answer = match kind {
        b"afd" => strict(alloc, text)?,
        b"loose" => loose(alloc, text)?,
        b"head" => head(alloc, text)?,
        b"trailer" => trailer(alloc, text)?,
        _ => return Ok(None),
    };
    Ok(Some(answer))
}

fn strict(alloc: Global, text: &[u8]) -> Result<Answer, AllocError> {
    match read(text) {
        Ok(found) => {
            let told = line_told(alloc, &found)?;
            match found.hash {
                Some(hash) => Answer::printed(
                    alloc,
                    text,
                    told,
                    print(&found.body, found.nsr, Some(&hash)).bytes(),
                ),
                None => Answer::printed(
                    alloc,
                    text,
                    told,
                    print(&found.body, found.nsr, None).bytes(),
                ),
            }
        }
        Err(bad) => Answer::off(alloc, text, bad.field),
    }
}

fn loose(alloc: Global, text: &[u8]) -> Result<Answer, AllocError> {
    match read_loose(text) {
        Ok(found) => {
            let value = line_told(alloc, &found)?;
            noted(alloc, text, &found.notes, value)
        }
        Err(bad) => Answer::off(alloc, text, bad.field),
    }
}

fn head(alloc: Global, text: &[u8]) -> Result<Answer, AllocError> {
    match read_head(text) {
        Ok(found) => {
            let value = head_told(alloc, &found.head)?;
            noted(alloc, text, &found.notes, value)
        }
        Err(bad) => Answer::off(alloc, text, bad.field),
    }
}

fn trailer(alloc: Global, text: &[u8]) -> Result<Answer, AllocError> {
    match read_trailer(text) {
        Some(found) => {
            let mut told = Told::new(alloc);
            told.numbers(b"counts", &found.counts)?;
            Answer::printed(alloc, text, told, &print_trailer(&found))
        }
        None => Answer::word(alloc, text, b"none"),
    }
}

/// What is told of a line beside its values, and these.
fn noted(alloc: Global, text: &[u8], notes: &Notes, value: Told) -> Result<Answer, AllocError> {
    let mut told = Told::new(alloc);
    if notes.crc {
        told.word(b"note crc")?;
    }
    if notes.stamp {
        told.word(b"note stamp")?;
    }
    if notes.rep {
        told.word(b"note rep")?;
    }
    if told.bytes.is_empty() {
        told.word(b"no note")?;
    }
    let mut answer = Answer::of(alloc, text, told)?;
    answer.value = Some(value.bytes);
    Ok(answer)
}

fn line_told(alloc: Global, found: &ReadLine) -> Result<Told, AllocError> {
    let mut told = Told::new(alloc);
    told.number(b"nsr", u64::from(found.nsr))?;
    push_body(&mut told, &found.body)?;
    if let Some(hash) = &found.hash {
        told.shown(b"hash", hash)?;
    }
    Ok(told)
}

/// The parts of a record.
pub(crate) fn push_body(told: &mut Told, body: &Body) -> Result<(), AllocError> {
    match body {
        Body::Employer {
            at,
            resp,
            id,
            cno,
            name,
            place,
        } => {
            told.stamp(b"employer at", at)?;
            told.cpf(b"by", resp)?;
            told.employer(id)?;
            told.number(b"cno", *cno)?;
            told.text(b"name", name.bytes())?;
            told.text(b"place", place.bytes())
        }
        Body::Adjust {
            before,
            after,
            resp,
        } => {
            told.stamp(b"clock from", before)?;
            told.stamp(b"to", after)?;
            told.cpf(b"by", resp)
        }
        Body::Worker {
            at,
            op,
            cpf,
            name,
            extra,
            resp,
        } => {
            told.stamp(b"worker at", at)?;
            told.word(op_name(*op))?;
            told.cpf(b"cpf", cpf)?;
            told.text(b"name", name.bytes())?;
            told.text(b"extra", extra.bytes())?;
            told.cpf(b"by", resp)
        }
        Body::Event { at, code } => {
            told.stamp(b"event at", at)?;
            told.number(b"code", u64::from(*code))
        }
        Body::Clocking {
            marked,
            cpf,
            recorded,
            collector,
            offline,
        } => {
            told.stamp(b"clocking marked", marked)?;
            told.cpf(b"cpf", cpf)?;
            told.stamp(b"recorded", recorded)?;
            told.number(b"collector", u64::from(*collector))?;
            told.word(if *offline { b"offline" } else { b"online" })
        }
    }
}

/// What is done to a registration.
pub(crate) fn op_name(op: Op) -> &'static [u8] {
    match op {
        Op::Include => b"included",
        Op::Amend => b"amended",
        Op::Exclude => b"excluded",
    }
}

fn head_told(alloc: Global, head: &Head) -> Result<Told, AllocError> {
    let mut told = Told::new(alloc);
    told.employer(&head.id)?;
    told.number(b"cno", head.cno)?;
    told.text(b"name", head.name.bytes())?;
    told.shown(b"rep", head.rep.bytes())?;
    told.day(b"from", &head.first)?;
    told.day(b"to", &head.last)?;
    told.stamp(b"made", &head.made)?;
    told.number(b"maker kind", u64::from(head.dev_kind))?;
    told.text(b"maker", &head.dev)?;
    told.text(b"model", head.model.bytes())?;
    Ok(told)
}

/// The hash of a clocking: `HASH PAYLOAD`, the hash before it, or `-` for the first, and the record before its own hash.
pub(crate) fn link_answer(
    alloc: Global,
    library: &Library,
    line: &Line,
    said: &[u8],
) -> Result<Answer, Fault> {
    let (before, record) = cut_at(said, b" ");
    let bytes = library.record_of(line, record)?;
    let before = hash_of(line, before)?;
    let payload = bytes.get(..PAYLOAD_LEN).unwrap_or(&[]);
    if payload.len() != PAYLOAD_LEN {
        return Err(line.fault("a record that has no payload of a clocking"));
    }
    let hash = match &before {
        Some(before) => link(Some(before), payload),
        None => link(None, payload),
    };
    Ok(Answer::word(alloc, &bytes, &hash)?)
}

/// Whether a clocking's line keeps the chain: `HASH RECORD`.
pub(crate) fn verify_answer(
    alloc: Global,
    library: &Library,
    line: &Line,
    said: &[u8],
) -> Result<Answer, Fault> {
    let (before, record) = cut_at(said, b" ");
    let bytes = library.record_of(line, record)?;
    let before = hash_of(line, before)?;
    if bytes.len() != CLOCKING_LEN {
        return Err(line.fault("a record that is no clocking"));
    }
    let keeps = match &before {
        Some(before) => verify(Some(before), &bytes),
        None => verify(None, &bytes),
    };
    Ok(Answer::word(alloc, &bytes, if keeps { b"keeps" } else { b"breaks" })?)
}

/// A hash of 64 bytes, or `-` for none.
fn hash_of(line: &Line, said: &[u8]) -> Result<Option<[u8; 64]>, Fault> {
    if said == b"-".as_slice() {
        return Ok(None);
    }
    if said.len() != HASH_LEN {
        return Err(line.fault("a hash before that has not 64 bytes"));
    }
    let mut hash = [0; 64];
    hash.copy_from_slice(said);
    Ok(Some(hash))
}

/// A whole AFD, `SIZE CALL RECORD`: it comes in pieces of that size, the call of that number fails, none where it is `-`, and
/// its first line is the record. Lines below go on behind that: `+ TEXT`, which LF ends, and `& RECORD`, which CR LF ends.
pub(crate) fn file_answer(
    alloc: Global,
    library: &Library,
    line: &Line,
    said: &[u8],
    block: &[Line],
) -> Result<Answer, Fault> {
    let (size, rest) = cut_at(said, b" ");
    let (call, record) = cut_at(rest, b" ");
    let Some(size) = number_of(size) else {
        return Err(line.fault("no size of pieces"));
    };
    let mut fails = Vec::new(alloc);
    if let Some(call) = number_of(call) {
        fails.push(call)?;
    }
    let mut text = library.record_of(line, record)?;
    for below in block {
        if let Some(more) = below.text.strip_prefix(b"+ ") {
            push_line(below, more, &mut text)?;
        } else if let Some(more) = below.text.strip_prefix(b"& ") {
            text.extend_from_slice(&library.record_of(below, more)?)?;
            text.extend_from_slice(b"\r\n")?;
        }
    }
    let mut pieces = Vec::new(alloc);
    for piece in text.chunks(size.clamp(1, 65_536) as usize) {
        pieces.push(piece.to_vec(alloc)?)?;
    }
    match read_afd(alloc, &mut MemSource::new(pieces, fails)) {
        Ok(afd) => Ok(Answer::of(alloc, &text, afd_told(alloc, &afd)?)?),
        Err(fault) => fault_answer(alloc, &text, fault),
    }
}

fn fault_answer(alloc: Global, text: &[u8], fault: AfdFault) -> Result<Answer, Fault> {
    let mut told = Told::new(alloc);
    match fault {
        AfdFault::NotAnAfd { line, field } => {
            told.number(b"line", line)?;
            told.number(b"off", u64::from(field))?;
        }
        AfdFault::SourceFault => told.word(b"source fault")?,
        AfdFault::InputLimit => told.word(b"input limit")?,
        AfdFault::OutOfMemory => return Err(Fault::Memory),
    }
    Ok(Answer::of(alloc, text, told)?)
}

/// The head's name and first day, and each line behind the head.
fn afd_told(alloc: Global, afd: &Afd) -> Result<Told, AllocError> {
    let mut told = Told::new(alloc);
    told.text(b"head", afd.head().name.bytes())?;
    told.day(b"from", &afd.head().first)?;
    told.word(if afd.crlf(1) { b"crlf" } else { b"lf" })?;
    for place in 1..afd.count() {
        let number = place + 1;
        let line = afd.line(number);
        if line.len() > MOST_SHOWN {
            told.number(b"bytes", line.len() as u64)?;
        } else {
            told.text(b"line", line)?;
        }
        let end: &[u8] = if afd.crlf(number) { b"crlf" } else { b"lf" };
        told.word(if afd.long(number) { b"long" } else { end })?;
    }
    Ok(told)
}
