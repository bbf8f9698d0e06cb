//! A file of rows: headings, and the lines that stand below each.

use crate::fault::Fault;
use crate::library::Library;
use crate::line::{Depth, Line, below, cut_at, lines_of};
use crate::row::{Miss, play};
use std::alloc::Global;

/// What takes in what came of rows.
pub(crate) trait Report {
    /// A row that isn't as it wants.
    fn miss(&mut self, name: &[u8], miss: &Miss) -> Result<(), Fault>;

    /// A group: how many of its rows hold, and how many there are.
    fn group(&mut self, name: &[u8], holding: u64, rows: u64) -> Result<(), Fault>;
}

/// What the files before left: what has a name, and the names of groups.
#[derive(Drop)]
pub(crate) struct Book {
    library: Library,
    groups: Vec<Vec<u8>>,
}

impl Book {
    pub(crate) fn new(alloc: Global) -> Self {
        Book {
            library: Library::new(alloc),
            groups: Vec::new(alloc),
        }
    }

    /// Takes in what a file gives a name to, and plays its groups of rows.
    pub(crate) fn play_file<T: Report>(
        &mut self,
        text: &[u8],
        report: &mut T,
    ) -> Result<(), Fault> {
        let lines = lines_of(self.library.alloc, text)?;
        for (place, line) in lines.iter().enumerate() {
            if line.depth == Depth::Heading {
                self.take(line, below(&lines, place, Depth::Heading), report)?;
            } else if place == 0 {
                return Err(line.fault("no heading above it"));
            }
        }
        Ok(())
    }

    fn take<T: Report>(
        &mut self,
        head: &Line,
        lines: &[Line],
        report: &mut T,
    ) -> Result<(), Fault> {
        let (kind, name) = cut_at(head.text, b" ");
        match kind {
            b"text" => self.library.add_text(head, name, lines),
            b"record" => self.library.add_record(head, name, lines),
            b"rows" => self.play_group(head, name, lines, report),
            _ => Err(head.fault("a heading that isn't known")),
        }
    }

    fn play_group<T: Report>(
        &mut self,
        head: &Line,
        name: &[u8],
        lines: &[Line],
        report: &mut T,
    ) -> Result<(), Fault> {
        if name.is_empty() || self.groups.iter().any(|other| other.as_slice() == name) {
            return Err(head.fault("a group without a name of its own"));
        }
        self.groups.push(name.to_vec(self.library.alloc)?)?;
        let mut rows = 0u64;
        let mut holding = 0u64;
        for (place, line) in lines.iter().enumerate() {
            if line.depth != Depth::Row {
                if place == 0 {
                    return Err(line.fault("no row above it"));
                }
                continue;
            }
            rows = rows.saturating_add(1);
            match play(&self.library, line, below(lines, place, Depth::Row))? {
                None => holding = holding.saturating_add(1),
                Some(miss) => report.miss(name, &miss)?,
            }
        }
        if rows == 0 {
            return Err(head.fault("a group without a row"));
        }
        report.group(name, holding, rows)
    }
}
