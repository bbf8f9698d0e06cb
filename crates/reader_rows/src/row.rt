//! A row: a reader's kind, the text that it is given, and below what has to come of it.

use crate::aej_rows::aej_answer;
use crate::answer::Answer;
use crate::fault::Fault;
use crate::field_rows::field_answer;
use crate::lane_rows::{lane_head, lane_line, made_answer, same_answer};
use crate::library::Library;
use crate::line::Line;
use crate::plan_rows::plan_answer;
use crate::record_rows::{file_answer, link_answer, record_answer, verify_answer};
use crate::site_rows::site_answer;
use crate::written::push_text;
use std::alloc::Global;

/// What isn't as a row wants it.
#[derive(Drop)]
pub(crate) struct Miss {
    /// The number of the row's line.
    pub(crate) number: u64,
    pub(crate) wanted: Vec<u8>,
    pub(crate) got: Vec<u8>,
}

/// Whether all that a row wants is so: the first thing that isn't.
pub(crate) fn play(library: &Library, row: &Line, block: &[Line]) -> Result<Option<Miss>, Fault> {
    let (kind, said) = row.words();
    let answer = answer_of(library, row, kind, said, block)?;
    let mut has_claim = false;
    let mut says_written = false;
    for line in block {
        if is_handed(line) {
            continue;
        }
        has_claim = true;
        says_written |= line.text.starts_with(b"written ");
        if let Some(miss) = claim_miss(library, row, kind, line, &answer)? {
            return Ok(Some(miss));
        }
    }
    if !has_claim {
        return Err(row.fault("a row without an expectation"));
    }
    match &answer.written {
        Some(written) if !says_written => missed(library.alloc, row, &answer.text, written),
        _ => Ok(None),
    }
}

/// Whether a line below a row hands it something, and wants nothing.
fn is_handed(line: &Line) -> bool {
    let (word, _) = line.words();
    match word {
        b"+" | b"-" | b"&" => true,
        _ => false,
    }
}

/// What the reader of a kind answers.
fn answer_of(
    library: &Library,
    line: &Line,
    kind: &[u8],
    said: &[u8],
    block: &[Line],
) -> Result<Answer, Fault> {
    let alloc = library.alloc;
    match kind {
        b"site" => return site_answer(alloc, &library.text_of(line, said, block)?),
        b"plan" => return plan_answer(alloc, &library.text_of(line, said, block)?),
        b"afd-file" => return file_answer(alloc, library, line, said, block),
        b"link" => return link_answer(alloc, library, line, said),
        b"verify" => return verify_answer(alloc, library, line, said),
        b"lane-line" => return lane_line(alloc, line, said),
        b"made" => return made_answer(alloc, line, said),
        b"same" => return same_answer(alloc, line, said),
        b"afd" | b"loose" | b"head" | b"trailer" => {
            if let Some(answer) = record_answer(alloc, kind, &library.record_of(line, said)?)? {
                return Ok(answer);
            }
        }
        _ => {}
    }
    let mut text = Vec::new(alloc);
    push_text(line, said, &mut text)?;
    if kind == b"lane-head".as_slice() {
        return Ok(lane_head(alloc, &text)?);
    }
    if let Some(answer) = field_answer(alloc, kind, &text)? {
        return Ok(answer);
    }
    match aej_answer(alloc, kind, &text)? {
        Some(answer) => Ok(answer),
        None => Err(line.fault("a kind of row that isn't known")),
    }
}

/// What isn't as one line below a row wants it.
fn claim_miss(
    library: &Library,
    row: &Line,
    kind: &[u8],
    line: &Line,
    answer: &Answer,
) -> Result<Option<Miss>, Fault> {
    let alloc = library.alloc;
    let (word, rest) = line.words();
    let mut wanted = Vec::new(alloc);
    match word {
        b"as" if rest == b"it stands".as_slice() => match &answer.written {
            Some(written) => missed(alloc, row, &answer.text, written),
            None => missed(alloc, row, &answer.text, &answer.told),
        },
        b"written" => {
            push_text(line, rest, &mut wanted)?;
            match &answer.written {
                Some(written) => missed(alloc, row, &wanted, written),
                None => missed(alloc, row, &wanted, &answer.told),
            }
        }
        b"reads" => {
            let other = rest.strip_prefix(b"as ").unwrap_or(rest);
            let other = answer_of(library, line, kind, other, &[])?;
            missed(alloc, row, other.value(), answer.value())
        }
        b"value" => {
            push_text(line, rest, &mut wanted)?;
            missed(alloc, row, &wanted, answer.value())
        }
        b"has" => {
            push_text(line, rest, &mut wanted)?;
            if has_part(answer.value(), &wanted) {
                return Ok(None);
            }
            missed(alloc, row, &wanted, answer.value())
        }
        _ => {
            push_text(line, line.text, &mut wanted)?;
            missed(alloc, row, &wanted, &answer.told)
        }
    }
}

/// Whether some parts stand among those that are told.
fn has_part(told: &[u8], part: &[u8]) -> bool {
    for place in 0..told.len() {
        let begins = place == 0 || told.get(..place).unwrap_or(&[]).ends_with(b", ");
        let rest = told.get(place..).unwrap_or(&[]);
        if let Some(behind) = rest.strip_prefix(part) {
            if begins && (behind.is_empty() || behind.starts_with(b", ")) {
                return true;
            }
        }
    }
    false
}

/// The miss, where two texts differ.
fn missed(alloc: Global, row: &Line, wanted: &[u8], got: &[u8]) -> Result<Option<Miss>, Fault> {
    if wanted == got {
        return Ok(None);
    }
    Ok(Some(Miss {
        number: row.number,
        wanted: wanted.to_vec(alloc)?,
        got: got.to_vec(alloc)?,
    }))
}
