//! What the files give a name to: texts, line by line, and records, field by field. A row says which one it means, and what of
//! it is another.

use crate::fault::Fault;
use crate::line::{Line, cut_at};
use crate::written::{number_of, push_field, push_line, push_text};
use std::alloc::Global;

/// No line, no field.
const NOTHING: &[u8] = b"nothing";

/// The most changes of one record or text in a row.
const MOST_CHANGES: u32 = 64;

#[derive(Drop)]
pub(crate) struct Library {
    pub(crate) alloc: Global,
    texts: Vec<Named>,
    records: Vec<Named>,
}

/// The lines of a text, without their ends, or the fields of a record.
#[derive(Drop)]
struct Named {
    name: Vec<u8>,
    parts: Vec<Vec<u8>>,
}

impl Library {
    pub(crate) fn new(alloc: Global) -> Self {
        Library {
            alloc,
            texts: Vec::new(alloc),
            records: Vec::new(alloc),
        }
    }

    /// Keeps a text: its lines.
    pub(crate) fn add_text(
        &mut self,
        head: &Line,
        name: &[u8],
        lines: &[Line],
    ) -> Result<(), Fault> {
        let mut parts = Vec::new(self.alloc);
        for line in lines {
            let mut bytes = Vec::new(self.alloc);
            push_text(line, line.text, &mut bytes)?;
            parts.push(bytes)?;
        }
        if name.is_empty() || name == NOTHING || find(&self.texts, name).is_some() {
            return Err(head.fault("a name that is none, or stands twice"));
        }
        let name = name.to_vec(self.alloc)?;
        self.texts.push(Named { name, parts })?;
        Ok(())
    }

    /// Keeps a record: its fields, which bars keep apart in the file and nothing in the record.
    pub(crate) fn add_record(
        &mut self,
        head: &Line,
        name: &[u8],
        lines: &[Line],
    ) -> Result<(), Fault> {
        let mut parts = Vec::new(self.alloc);
        for line in lines {
            for field in line.text.split(|b| *b == b'|') {
                let mut bytes = Vec::new(self.alloc);
                push_field(line, field, &mut bytes)?;
                parts.push(bytes)?;
            }
        }
        if name.is_empty() || name == NOTHING || find(&self.records, name).is_some() {
            return Err(head.fault("a name that is none, or stands twice"));
        }
        let name = name.to_vec(self.alloc)?;
        self.records.push(Named { name, parts })?;
        Ok(())
    }

    /// The bytes of `NAME; N is TEXT; ..`: a record in which the field N, counted from 1, is another.
    pub(crate) fn record_of(&self, line: &Line, said: &[u8]) -> Result<Vec<u8>, Fault> {
        let (name, changes) = cut_at(said, b"; ");
        let mut parts = self.parts_of(line, &self.records, name)?;
        let mut rest = changes;
        for _ in 0..MOST_CHANGES {
            if rest.is_empty() {
                break;
            }
            let (change, behind) = cut_at(rest, b"; ");
            change_field(self.alloc, line, change, &mut parts)?;
            rest = behind;
        }
        if !rest.is_empty() {
            return Err(line.fault("too many changes"));
        }
        let mut bytes = Vec::new(self.alloc);
        for part in &parts {
            bytes.extend_from_slice(part)?;
        }
        Ok(bytes)
    }

    /// The bytes of `NAME: OLD -> NEW`, a text in which one line is another or, where nothing stands behind the arrow, missing;
    /// with what lines below add, behind `+ `, or take out, behind `- `. Each line ends with LF.
    pub(crate) fn text_of(
        &self,
        line: &Line,
        said: &[u8],
        block: &[Line],
    ) -> Result<Vec<u8>, Fault> {
        let (name, change) = cut_at(said, b": ");
        let mut parts = self.parts_of(line, &self.texts, name)?;
        if !change.is_empty() {
            let (old, new) = cut_at(change, b" -> ");
            if old.len() == change.len() {
                return Err(line.fault("a change without an arrow"));
            }
            change_line(self.alloc, line, old, new, &mut parts)?;
        }
        for below in block {
            if let Some(old) = below.text.strip_prefix(b"- ") {
                change_line(self.alloc, below, old, b"", &mut parts)?;
            }
        }
        let mut bytes = Vec::new(self.alloc);
        for part in &parts {
            bytes.extend_from_slice(part)?;
            if !part.is_empty() {
                bytes.push(b'\n')?;
            }
        }
        for below in block {
            if let Some(new) = below.text.strip_prefix(b"+ ") {
                push_line(below, new, &mut bytes)?;
            }
        }
        Ok(bytes)
    }

    fn parts_of(&self, line: &Line, all: &[Named], name: &[u8]) -> Result<Vec<Vec<u8>>, Fault> {
        let mut parts = Vec::new(self.alloc);
        if name == NOTHING {
            return Ok(parts);
        }
        let Some(named) = find(all, name) else {
            return Err(line.fault("a name that nothing has"));
        };
        for part in &named.parts {
            parts.push(part.to_vec(self.alloc)?)?;
        }
        Ok(parts)
    }
}

fn find<'a>(all: &'a [Named], name: &[u8]) -> Option<&'a Named> {
    all.iter().find(|named| named.name.as_slice() == name)
}

/// `N is TEXT`.
fn change_field(
    alloc: Global,
    line: &Line,
    change: &[u8],
    parts: &mut Vec<Vec<u8>>,
) -> Result<(), Fault> {
    let (number, text) = cut_at(change, b" is ");
    let Some(number) = number_of(number) else {
        return Err(line.fault("no number of a field"));
    };
    let mut bytes = Vec::new(alloc);
    push_field(line, text, &mut bytes)?;
    match parts.get_mut((number as usize).wrapping_sub(1)) {
        Some(part) => {
            *part = bytes;
            Ok(())
        }
        None => Err(line.fault("the record has no such field")),
    }
}

/// Puts another line in the place of the one that reads so.
fn change_line(
    alloc: Global,
    line: &Line,
    old: &[u8],
    new: &[u8],
    parts: &mut Vec<Vec<u8>>,
) -> Result<(), Fault> {
    let mut wanted = Vec::new(alloc);
    push_text(line, old, &mut wanted)?;
    let mut bytes = Vec::new(alloc);
    push_text(line, new, &mut bytes)?;
    let place = parts
        .iter()
        .position(|part| part.as_slice() == wanted.as_slice());
    match place.and_then(|place| parts.get_mut(place)) {
        Some(part) => {
            *part = bytes;
            Ok(())
        }
        None => Err(line.fault("the text has no such line")),
    }
}
