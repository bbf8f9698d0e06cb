use crate::fault::Fault;
use crate::line::{Line, cut_at};
use crate::written::{byte_of, number_of, push_line, push_record, push_text};
use std::alloc::Global;

/// The first bytes of a journal.
const MAGIC: &[u8] = b"REP-P JOURNAL 1\n";

/// The gate before a frame, and that behind the last.
const OPEN: u8 = 0xA5;

const CLOSED: u8 = 0;

/// What the files of cases give a name to: texts, journals and records.
#[derive(Drop)]
pub(crate) struct Library {
    alloc: Global,
    named: Vec<Named>,
}

#[derive(Drop)]
struct Named {
    name: Vec<u8>,
    bytes: Vec<u8>,
}

impl Library {
    pub(crate) fn new(alloc: Global) -> Self {
        Library {
            alloc,
            named: Vec::new(alloc),
        }
    }

    /// Keeps a text: its lines, each ended by LF.
    pub(crate) fn add_text(
        &mut self,
        head: &Line,
        name: &[u8],
        lines: &[Line],
    ) -> Result<(), Fault> {
        let mut bytes = Vec::new(self.alloc);
        for line in lines {
            push_line(line, line.text, &mut bytes)?;
        }
        self.add(head, name, bytes)
    }

    /// Keeps records: one a line, field by field, each ended by CR LF.
    pub(crate) fn add_records(
        &mut self,
        head: &Line,
        name: &[u8],
        lines: &[Line],
    ) -> Result<(), Fault> {
        let mut bytes = Vec::new(self.alloc);
        for line in lines {
            push_record(line, line.text, &mut bytes)?;
            bytes.extend_from_slice(b"\r\n")?;
        }
        self.add(head, name, bytes)
    }

    /// Keeps a journal: a frame a line, its origin, its sequence number and its record, field by field. `NAME on OTHER` goes on
    /// with the frames of another.
    pub(crate) fn add_journal(
        &mut self,
        head: &Line,
        name: &[u8],
        lines: &[Line],
    ) -> Result<(), Fault> {
        let (name, base) = split_base(name);
        let mut bytes = Vec::new(self.alloc);
        match base {
            Some(base) => {
                bytes.extend_from_slice(self.named(head, base)?)?;
                // the gate behind the last frame
                bytes.pop();
            }
            None => bytes.extend_from_slice(MAGIC)?,
        }
        for line in lines {
            push_frame(self.alloc, line, &mut bytes)?;
        }
        bytes.push(CLOSED)?;
        self.add(head, name, bytes)
    }

    fn add(&mut self, head: &Line, name: &[u8], bytes: Vec<u8>) -> Result<(), Fault> {
        if name.is_empty() || name == b"nothing".as_slice() || self.find(name).is_some() {
            return Err(head.fault("a name that is none, or stands twice"));
        }
        let name = name.to_vec(self.alloc)?;
        self.named.push(Named { name, bytes })?;
        Ok(())
    }

    fn find(&self, name: &[u8]) -> Option<&[u8]> {
        for named in &self.named {
            if named.name.as_slice() == name {
                return Some(named.bytes.as_slice());
            }
        }
        None
    }

    /// The bytes of a name.
    pub(crate) fn named(&self, line: &Line, name: &[u8]) -> Result<&[u8], Fault> {
        if name == b"nothing".as_slice() {
            return Ok(b"");
        }
        match self.find(name) {
            Some(bytes) => Ok(bytes),
            None => Err(line.fault("a name that nothing has")),
        }
    }

    /// The bytes that `NAME, CHANGE, ..` says, where a change is `N bytes`, which cuts them, `byte N is HH`, or `then TEXT`.
    pub(crate) fn contents(&self, line: &Line, said: &[u8]) -> Result<Vec<u8>, Fault> {
        let (name, mut changes) = cut_at(said, b',');
        let mut bytes = self.named(line, name)?.to_vec(self.alloc)?;
        for _ in 0..MOST_CHANGES {
            if changes.is_empty() {
                return Ok(bytes);
            }
            let (change, rest) = cut_at(changes, b',');
            let Some(change) = change.strip_prefix(b" ") else {
                return Err(line.fault("no space before a change"));
            };
            change_bytes(line, change, &mut bytes)?;
            changes = rest;
        }
        Err(line.fault("too many changes"))
    }
}

/// The most changes of one content.
const MOST_CHANGES: u32 = 16;

/// `NAME on OTHER` in its two names, and a name alone.
fn split_base(said: &[u8]) -> (&[u8], Option<&[u8]>) {
    for place in 0..said.len() {
        if let (Some(name), Some(rest)) = (said.get(..place), said.get(place..)) {
            if let Some(base) = rest.strip_prefix(b" on ") {
                return (name, Some(base));
            }
        }
    }
    (said, None)
}

fn push_frame(alloc: Global, line: &Line, bytes: &mut Vec<u8>) -> Result<(), Fault> {
    let (origin, rest) = line.words();
    let (seq, text) = cut_at(rest, b' ');
    let (Some(origin), Some(seq)) = (number_of(origin), number_of(seq)) else {
        return Err(line.fault("no origin and sequence number"));
    };
    let mut record = Vec::new(alloc);
    push_record(line, text, &mut record)?;
    let (Ok(size), Ok(origin)) = (u16::try_from(record.len()), u16::try_from(origin)) else {
        return Err(line.fault("an origin or a record out of range"));
    };
    bytes.push(OPEN)?;
    bytes.extend_from_slice(&size.to_be_bytes())?;
    bytes.extend_from_slice(&origin.to_be_bytes())?;
    bytes.extend_from_slice(&seq.to_be_bytes())?;
    bytes.extend_from_slice(&record)?;
    Ok(())
}

fn change_bytes(line: &Line, change: &[u8], bytes: &mut Vec<u8>) -> Result<(), Fault> {
    if let Some(text) = change.strip_prefix(b"then ") {
        push_text(line, text, bytes)?;
        return Ok(());
    }
    if let Some(place) = change.strip_prefix(b"byte ") {
        return change_byte(line, place, bytes);
    }
    match change.strip_suffix(b" bytes").and_then(number_of) {
        Some(size) if size <= bytes.len() as u64 => {
            bytes.truncate(size as usize);
            Ok(())
        }
        _ => Err(line.fault("no change, or a longer one than there is")),
    }
}

/// `N is HH`.
fn change_byte(line: &Line, said: &[u8], bytes: &mut Vec<u8>) -> Result<(), Fault> {
    let (place, rest) = cut_at(said, b' ');
    let (is, value) = cut_at(rest, b' ');
    let (Some(place), Some(value)) = (number_of(place), byte_of(value)) else {
        return Err(line.fault("no place and byte"));
    };
    if is != b"is".as_slice() {
        return Err(line.fault("no place and byte"));
    }
    match bytes.get_mut(place as usize) {
        Some(byte) => {
            *byte = value;
            Ok(())
        }
        None => Err(line.fault("a place behind the end")),
    }
}
