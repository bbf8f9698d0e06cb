//! Rows of the lines of a lane file.

use crate::answer::Answer;
use crate::fault::Fault;
use crate::line::{Line, cut_at};
use crate::record_rows::{op_name, push_body};
use crate::told::Told;
use crate::written::push_text;
use rep_fields::Stamp;
use rep_wire::{Ask, Entry, Malformed, Order, Request, made, read_lane_head, read_line, same};
use std::alloc::{AllocError, Global};

/// When the records of rows are made.
const RECORDED: &[u8] = b"2024-03-04T13:00:00-0300";

/// A lane's head.
pub(crate) fn lane_head(alloc: Global, text: &[u8]) -> Result<Answer, AllocError> {
    let Some(head) = read_lane_head(text) else {
        return Answer::word(alloc, text, b"none");
    };
    let mut told = Told::new(alloc);
    told.number(b"origin", u64::from(head.origin))?;
    told.number(b"kind", u64::from(head.kind))?;
    Answer::of(alloc, text, told)
}

/// What a line orders: `HEAD LINE`.
pub(crate) fn lane_line(alloc: Global, line: &Line, said: &[u8]) -> Result<Answer, Fault> {
    let (head, rest) = cut_at(said, b" ");
    let text = bytes_of(alloc, line, rest)?;
    let mut told = Told::new(alloc);
    let Some(head) = read_lane_head(head) else {
        return Err(line.fault("no head of a lane"));
    };
    push_order(&mut told, &read_line(&text, &head))?;
    Ok(Answer::of(alloc, &text, told)?)
}

/// What a line orders, or where it is off.
fn push_order(told: &mut Told, order: &Result<Order, Malformed>) -> Result<(), AllocError> {
    match order {
        Ok(Order::Asked(request)) => push_request(told, request),
        Ok(Order::Extract { seq, from, to }) => {
            told.number(b"seq", *seq)?;
            told.day(b"extract from", from)?;
            told.day(b"to", to)
        }
        Err(malformed) => {
            told.number(b"off", u64::from(malformed.field))?;
            told.number(b"seq", malformed.seq)
        }
    }
}

fn push_request(told: &mut Told, request: &Request) -> Result<(), AllocError> {
    told.number(b"origin", u64::from(request.origin))?;
    told.number(b"seq", request.seq)?;
    match &request.ask {
        Ask::Mark { cpf, collector, at } => {
            told.cpf(b"mark of", cpf)?;
            told.number(b"collector", u64::from(*collector))?;
            match at {
                Some(at) => told.stamp(b"offline since", at),
                None => told.word(b"online"),
            }
        }
        Ask::Employer {
            resp,
            id,
            cno,
            name,
            place,
        } => {
            told.cpf(b"employer by", resp)?;
            told.employer(id)?;
            told.number(b"cno", *cno)?;
            told.text(b"name", name.bytes())?;
            told.text(b"place", place.bytes())
        }
        Ask::Worker {
            op,
            cpf,
            name,
            extra,
            resp,
        } => {
            told.shown(b"worker", op_name(*op))?;
            told.cpf(b"cpf", cpf)?;
            told.text(b"name", name.bytes())?;
            told.text(b"extra", extra.bytes())?;
            told.cpf(b"by", resp)
        }
        Ask::Adjust { before, resp } => {
            told.stamp(b"clock from", before)?;
            told.cpf(b"by", resp)
        }
        Ask::Event { code } => told.number(b"event", u64::from(*code)),
    }
}

/// The request that a line of a lane of this head asks. `None` where it asks none.
fn request_of(head: &[u8], text: &[u8]) -> Option<Request> {
    let Some(head) = read_lane_head(head) else {
        return None;
    };
    match read_line(text, &head) {
        Ok(Order::Asked(request)) => Some(request),
        Ok(Order::Extract { .. }) => None,
        Err(_) => None,
    }
}

/// The bytes that a text stands for.
fn bytes_of(alloc: Global, line: &Line, said: &[u8]) -> Result<Vec<u8>, Fault> {
    let mut bytes = Vec::new(alloc);
    push_text(line, said, &mut bytes)?;
    Ok(bytes)
}

/// The record that a request becomes: `HEAD LINE`.
pub(crate) fn made_answer(alloc: Global, line: &Line, said: &[u8]) -> Result<Answer, Fault> {
    let (head, rest) = cut_at(said, b" ");
    let text = bytes_of(alloc, line, rest)?;
    let Some(request) = request_of(head, &text) else {
        return Err(line.fault("no request"));
    };
    let Some(stamp) = Stamp::read(RECORDED) else {
        return Err(line.fault("no stamp"));
    };
    let mut told = Told::new(alloc);
    push_body(&mut told, &made(&request, stamp))?;
    Ok(Answer::of(alloc, said, told)?)
}

/// Whether the record of a request has what another asks: `HEAD LINE -> HEAD LINE`.
pub(crate) fn same_answer(alloc: Global, line: &Line, said: &[u8]) -> Result<Answer, Fault> {
    let (first, second) = cut_at(said, b" -> ");
    let (head, rest) = cut_at(first, b" ");
    let text = bytes_of(alloc, line, rest)?;
    let (other_head, other_rest) = cut_at(second, b" ");
    let other_text = bytes_of(alloc, line, other_rest)?;
    let Some(request) = request_of(head, &text) else {
        return Err(line.fault("no request"));
    };
    let Some(other) = request_of(other_head, &other_text) else {
        return Err(line.fault("no second request"));
    };
    let Some(stamp) = Stamp::read(RECORDED) else {
        return Err(line.fault("no stamp"));
    };
    let entry = Entry {
        origin: request.origin,
        seq: request.seq,
        body: made(&request, stamp),
    };
    let word: &[u8] = if same(&other, &entry) {
        b"same"
    } else {
        b"other"
    };
    Ok(Answer::word(alloc, said, word)?)
}
