use crate::fault::Fault;
use std::alloc::Global;

/// A line of a file of cases that says something.
#[derive(Clone, Copy, Debug)]
pub(crate) struct Line<'a> {
    /// Its number in the file, from 1.
    pub(crate) number: u64,
    pub(crate) depth: Depth,
    /// What stands behind the indentation.
    pub(crate) text: &'a [u8],
}

/// How far a line is indented.
#[derive(Clone, Copy, Debug, PartialEq, Eq)]
pub(crate) enum Depth {
    /// Not at all: it begins a text, a journal, records or a case.
    Heading,
    /// By two spaces: a step of a case, or a line of what a heading begins.
    Step,
    /// By four: a line of a lane or a schedule.
    Block,
}

impl<'a> Line<'a> {
    /// The first word, and what follows the space behind it.
    pub(crate) fn words(&self) -> (&'a [u8], &'a [u8]) {
        cut_at(self.text, b' ')
    }

    pub(crate) fn fault(&self, why: &'static str) -> Fault {
        Fault::Line {
            number: self.number,
            why,
        }
    }
}

/// What stands before a byte and behind it; all and nothing where it isn't there.
pub(crate) fn cut_at(text: &[u8], byte: u8) -> (&[u8], &[u8]) {
    match text.iter().position(|b| *b == byte) {
        Some(place) => match (text.get(..place), text.get(place + 1..)) {
            (Some(front), Some(rest)) => (front, rest),
            _ => (text, &[]),
        },
        None => (text, &[]),
    }
}

/// The lines of a file that say something: those that aren't blank and are no comment, which begins with `#`.
pub(crate) fn lines_of(alloc: Global, file: &[u8]) -> Result<Vec<Line<'_>>, Fault> {
    let mut lines = Vec::new(alloc);
    let mut number = 0u64;
    for whole in file.split(|b| *b == b'\n') {
        number = number.saturating_add(1);
        let (depth, text) = dented(whole);
        if !text.is_empty() && !text.starts_with(b"#") {
            lines.push(Line {
                number,
                depth,
                text,
            })?;
        }
    }
    Ok(lines)
}

/// How far a line is indented, and what stands behind that.
fn dented(whole: &[u8]) -> (Depth, &[u8]) {
    if let Some(text) = whole.strip_prefix(b"    ") {
        return (Depth::Block, text);
    }
    match whole.strip_prefix(b"  ") {
        Some(text) => (Depth::Step, text),
        None => (Depth::Heading, whole),
    }
}
