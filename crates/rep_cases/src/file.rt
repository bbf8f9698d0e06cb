//! A file of cases: headings, and the lines that stand below each.

use crate::course::{Verdict, play};
use crate::fault::Fault;
use crate::library::Library;
use crate::line::{Depth, Line, cut_at, lines_of};
use std::alloc::Global;

/// What takes in the verdict on a case of this name.
pub(crate) trait Report {
    fn tell(&mut self, name: &[u8], verdict: &Verdict) -> Result<(), Fault>;
}

/// What the files before left: what has a name, and the names of cases.
#[derive(Drop)]
pub(crate) struct Book {
    alloc: Global,
    library: Library,
    cases: Vec<Vec<u8>>,
}

impl Book {
    pub(crate) fn new(alloc: Global) -> Self {
        Book {
            alloc,
            library: Library::new(alloc),
            cases: Vec::new(alloc),
        }
    }

    /// Takes in what a file gives a name to, and plays its cases.
    pub(crate) fn play_file<T: Report>(
        &mut self,
        text: &[u8],
        report: &mut T,
    ) -> Result<(), Fault> {
        let lines = lines_of(self.alloc, text)?;
        for (place, line) in lines.iter().enumerate() {
            if line.depth == Depth::Heading {
                self.take(line, below(&lines, place), report)?;
            } else if place == 0 {
                return Err(line.fault("no heading above it"));
            }
        }
        Ok(())
    }

    fn take<T: Report>(
        &mut self,
        head: &Line,
        lines: &[Line],
        report: &mut T,
    ) -> Result<(), Fault> {
        let (kind, name) = cut_at(head.text, b' ');
        match kind {
            b"text" => self.library.add_text(head, name, lines),
            b"records" => self.library.add_records(head, name, lines),
            b"journal" => self.library.add_journal(head, name, lines),
            b"case" => self.play(head, name, lines, report),
            _ => Err(head.fault("a heading that isn't known")),
        }
    }

    fn play<T: Report>(
        &mut self,
        head: &Line,
        name: &[u8],
        lines: &[Line],
        report: &mut T,
    ) -> Result<(), Fault> {
        if name.is_empty() || self.cases.iter().any(|other| other.as_slice() == name) {
            return Err(head.fault("a case without a name of its own"));
        }
        self.cases.push(name.to_vec(self.alloc)?)?;
        let verdict = play(self.alloc, &self.library, head, lines)?;
        report.tell(name, &verdict)
    }
}

/// The lines below a heading.
fn below<'a>(lines: &'a [Line<'a>], place: usize) -> &'a [Line<'a>] {
    let rest = lines.get(place.saturating_add(1)..).unwrap_or(&[]);
    let size = rest
        .iter()
        .position(|line| line.depth == Depth::Heading)
        .unwrap_or(rest.len());
    rest.get(..size).unwrap_or(&[])
}
