use crate::fault::Fault;
use std::alloc::Global;

/// A line of a file of rows that says something.
#[derive(Clone, Copy, Debug)]
pub(crate) struct Line<'a> {
    /// Its number in the file, from 1.
    pub(crate) number: u64,
    pub(crate) depth: Depth,
    /// What stands behind the indentation.
    pub(crate) text: &'a [u8],
}

/// How far a line is indented.
#[derive(Clone, Copy, Debug, PartialEq, Eq)]
pub(crate) enum Depth {
    /// Not at all: it begins a text, a record or a group of rows.
    Heading,
    /// By two spaces: a row, or a line of what a heading begins.
    Row,
    /// By four: what belongs to a row.
    Below,
}

impl<'a> Line<'a> {
    /// The first word, and what follows the space behind it.
    pub(crate) fn words(&self) -> (&'a [u8], &'a [u8]) {
        cut_at(self.text, b" ")
    }

    pub(crate) fn fault(&self, why: &'static str) -> Fault {
        Fault::Line {
            number: self.number,
            why,
        }
    }
}

/// What stands before a mark and behind it; all and nothing where it isn't there.
pub(crate) fn cut_at<'a>(text: &'a [u8], mark: &[u8]) -> (&'a [u8], &'a [u8]) {
    for place in 0..text.len() {
        let rest = text.get(place..).unwrap_or(&[]);
        if let Some(behind) = rest.strip_prefix(mark) {
            return (text.get(..place).unwrap_or(&[]), behind);
        }
    }
    (text, &[])
}

/// The lines of a file that say something: those that aren't blank and are no comment, which begins with `#`.
pub(crate) fn lines_of(alloc: Global, file: &[u8]) -> Result<Vec<Line<'_>>, Fault> {
    let mut lines = Vec::new(alloc);
    let mut number = 0u64;
    for whole in file.split(|b| *b == b'\n') {
        number = number.saturating_add(1);
        let (depth, text) = dented(whole);
        if !text.is_empty() && !text.starts_with(b"#") {
            lines.push(Line {
                number,
                depth,
                text,
            })?;
        }
    }
    Ok(lines)
}

/// The lines behind a place, up to the first that isn't deeper than a depth.
pub(crate) fn below<'a>(lines: &'a [Line<'a>], place: usize, depth: Depth) -> &'a [Line<'a>] {
    let rest = lines.get(place.saturating_add(1)..).unwrap_or(&[]);
    let size = rest
        .iter()
        .position(|line| line.depth == depth || line.depth == Depth::Heading)
        .unwrap_or(rest.len());
    rest.get(..size).unwrap_or(&[])
}

/// How far a line is indented, and what stands behind that.
fn dented(whole: &[u8]) -> (Depth, &[u8]) {
    if let Some(text) = whole.strip_prefix(b"    ") {
        return (Depth::Below, text);
    }
    match whole.strip_prefix(b"  ") {
        Some(text) => (Depth::Row, text),
        None => (Depth::Heading, whole),
    }
}
