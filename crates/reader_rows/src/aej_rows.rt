//! Rows of the lines of an AEJ.

use crate::answer::Answer;
use crate::told::Told;
use aej_records::{AejLine, LineType, line_type, print, read};
use std::alloc::{AllocError, Global};

/// What the reader of a kind of AEJ row says of a text. `None` where no such row has that kind.
pub(crate) fn aej_answer(
    alloc: Global,
    kind: &[u8],
    text: &[u8],
) -> Result<Option<Answer>, AllocError> {
    let answer = match kind {
        b"aej" => aej(alloc, text)?,
        b"aej-type" => Answer::word(alloc, text, type_name(line_type(text)))?,
        _ => return Ok(None),
    };
    Ok(Some(answer))
}

fn aej(alloc: Global, text: &[u8]) -> Result<Answer, AllocError> {
    match read(text) {
        Ok(line) => {
            let mut told = Told::new(alloc);
            push_aej(&mut told, &line)?;
            Answer::printed(alloc, text, told, print(&line).bytes())
        }
        Err(bad) => Answer::off(alloc, text, bad.field),
    }
}

fn type_name(found: Option<LineType>) -> &'static [u8] {
    match found {
        Some(LineType::Head) => b"head",
        Some(LineType::Rep) => b"recorder",
        Some(LineType::Link) => b"employment",
        Some(LineType::Schedule) => b"schedule",
        Some(LineType::Mark) => b"mark",
        Some(LineType::Registration) => b"registration",
        Some(LineType::Absence) => b"absence",
        Some(LineType::Program) => b"program",
        Some(LineType::Counts) => b"counts",
        None => b"none",
    }
}

fn push_aej(told: &mut Told, line: &AejLine) -> Result<(), AllocError> {
    match line {
        AejLine::Head { .. } => push_head(told, line),
        AejLine::Mark { .. } => push_mark(told, line),
        AejLine::Program { .. } => push_program(told, line),
        AejLine::Rep { id, kind, number } => {
            told.number(b"recorder", u64::from(*id))?;
            told.number(b"kind", u64::from(*kind))?;
            told.text(b"number", number.bytes())
        }
        AejLine::Link { id, cpf, name } => {
            told.number(b"employment", u64::from(*id))?;
            told.cpf(b"cpf", cpf)?;
            told.text(b"name", name.bytes())
        }
        AejLine::Schedule {
            code,
            minutes,
            times,
        } => {
            told.text(b"schedule", code.bytes())?;
            told.number(b"minutes", u64::from(*minutes))?;
            told.numbers(b"times", times.minutes())
        }
        AejLine::Registration { link, number } => {
            told.number(b"registration of", u64::from(*link))?;
            told.text(b"number", number.bytes())
        }
        AejLine::Absence {
            link,
            kind,
            date,
            minutes,
            movement,
        } => {
            told.number(b"absence of", u64::from(*link))?;
            told.number(b"kind", u64::from(*kind))?;
            told.day(b"date", date)?;
            told.number_or_no(b"minutes", minutes.map(u64::from))?;
            told.number_or_no(b"movement", movement.map(u64::from))
        }
        AejLine::Counts { counts } => told.numbers(b"counts", counts),
    }
}

fn push_head(told: &mut Told, line: &AejLine) -> Result<(), AllocError> {
    if let AejLine::Head {
        id,
        caepf,
        cno,
        name,
        first,
        last,
        made,
    } = line
    {
        told.word(b"head")?;
        told.employer(id)?;
        told.text(b"caepf", caepf.bytes())?;
        told.text(b"cno", cno.bytes())?;
        told.text(b"name", name.bytes())?;
        told.day(b"from", first)?;
        told.day(b"to", last)?;
        told.stamp(b"made", made)?;
    }
    Ok(())
}

fn push_mark(told: &mut Told, line: &AejLine) -> Result<(), AllocError> {
    if let AejLine::Mark {
        link,
        at,
        rep,
        mark,
        pair,
        source,
        schedule,
        reason,
    } = line
    {
        told.number(b"mark of", u64::from(*link))?;
        told.stamp(b"at", at)?;
        told.number_or_no(b"recorder", rep.map(u64::from))?;
        told.shown(b"mark", &[*mark])?;
        told.number_or_no(b"pair", pair.map(u64::from))?;
        told.shown(b"source", &[*source])?;
        told.text(b"schedule", schedule.bytes())?;
        told.text(b"reason", reason.bytes())?;
    }
    Ok(())
}

fn push_program(told: &mut Told, line: &AejLine) -> Result<(), AllocError> {
    if let AejLine::Program {
        name,
        version,
        developer,
        developer_name,
        email,
    } = line
    {
        told.text(b"program", name.bytes())?;
        told.text(b"version", version.bytes())?;
        told.employer(developer)?;
        told.text(b"maker", developer_name.bytes())?;
        told.text(b"e-mail", email.bytes())?;
    }
    Ok(())
}
