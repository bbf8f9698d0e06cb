use crate::fault::Fault;
use crate::library::Library;
use crate::line::{Line, cut_at};
use crate::written::{ANY, number_of, push_line, push_text};
use std::alloc::Global;

/// What a command has to say, to write and to leave, as far as steps have told.
#[derive(Drop)]
pub(crate) struct Wanted {
    alloc: Global,
    /// What is written to the file: replies, or an AFD.
    file: Vec<u8>,
    /// What is said on the output.
    said: Vec<u8>,
    status: Option<u8>,
    /// Contents one of which the disk has.
    left: Vec<Vec<u8>>,
    /// Bytes that the file has from a place on.
    shown: Vec<Shown>,
    size: Option<u64>,
}

#[derive(Drop)]
struct Shown {
    place: usize,
    bytes: Vec<u8>,
}

/// What a command did.
#[derive(Drop)]
pub(crate) struct Done {
    pub(crate) file: Vec<u8>,
    pub(crate) said: Vec<u8>,
    pub(crate) status: u8,
    /// What the disk holds, where the command has one.
    pub(crate) left: Option<Vec<u8>>,
}

/// What isn't as it is wanted, and both.
#[derive(Drop)]
pub(crate) struct Miss {
    pub(crate) what: &'static str,
    pub(crate) wanted: Vec<u8>,
    pub(crate) got: Vec<u8>,
}

impl Wanted {
    /// Nothing is wanted yet.
    pub(crate) fn new(alloc: Global) -> Self {
        Wanted {
            alloc,
            file: Vec::new(alloc),
            said: Vec::new(alloc),
            status: None,
            left: Vec::new(alloc),
            shown: Vec::new(alloc),
            size: None,
        }
    }

    /// Takes in what a step wants. Whether it is such a step.
    pub(crate) fn take(
        &mut self,
        library: &Library,
        before: &[u8],
        line: &Line,
    ) -> Result<bool, Fault> {
        let (verb, rest) = line.words();
        match verb {
            b"gets" => push_line(line, rest, &mut self.file)?,
            b"says" => push_line(line, rest, &mut self.said)?,
            b"tells" => {
                let bytes = library.contents(line, rest)?;
                self.said.extend_from_slice(&bytes)?;
            }
            b"writes" => {
                let bytes = library.contents(line, rest)?;
                self.file.extend_from_slice(&bytes)?;
            }
            b"ends" => self.take_status(line, rest)?,
            b"leaves" if rest == b"the same".as_slice() => self
                .left
                .push(before.to_vec(self.alloc)?)?,
            b"leaves" | b"or" => self.left.push(library.contents(line, rest)?)?,
            b"shows" => self.take_shown(line, rest)?,
            b"sized" => self.take_size(line, rest)?,
            _ => return Ok(false),
        }
        Ok(true)
    }

    fn take_status(&mut self, line: &Line, said: &[u8]) -> Result<(), Fault> {
        let number = number_of(said);
        match number.and_then(|n| u8::try_from(n).ok()) {
            Some(status) if self.status.is_none() => {
                self.status = Some(status);
                Ok(())
            }
            _ => Err(line.fault("no status, or a second one")),
        }
    }

    fn take_size(&mut self, line: &Line, said: &[u8]) -> Result<(), Fault> {
        self.size = number_of(said);
        if self.size.is_none() {
            return Err(line.fault("no number of bytes"));
        }
        Ok(())
    }

    /// `PLACE TEXT`.
    fn take_shown(&mut self, line: &Line, said: &[u8]) -> Result<(), Fault> {
        let (place, text) = cut_at(said, b' ');
        let Some(place) = number_of(place) else {
            return Err(line.fault("no place"));
        };
        let mut bytes = Vec::new(self.alloc);
        push_text(line, text, &mut bytes)?;
        self.shown.push(Shown {
            place: place as usize,
            bytes,
        })?;
        Ok(())
    }

    /// The status, which each turn tells.
    pub(crate) fn status(&self) -> Option<u8> {
        self.status
    }

    /// Whether the file is looked at by its size and parts alone.
    fn is_partial(&self) -> bool {
        self.size.is_some() || !self.shown.is_empty()
    }

    /// Whether all that a turn has to tell was told: its status, and what is left where it has a disk.
    pub(crate) fn is_whole(&self, done: &Done) -> bool {
        self.status.is_some() && (done.left.is_none() || !self.left.is_empty())
    }

    /// The first thing that isn't as it is wanted.
    pub(crate) fn miss(&self, done: &Done) -> Result<Option<Miss>, Fault> {
        if let Some(miss) = self.miss_of_left(done)? {
            return Ok(Some(miss));
        }
        if let Some(miss) = self.miss_of_file(done)? {
            return Ok(Some(miss));
        }
        if !is_like(&self.said, &done.said) {
            return self.missed("the output", &self.said, &done.said);
        }
        self.miss_of_status(done)
    }

    /// The first of the things that were told which isn't as it is wanted. What wasn't told is open.
    pub(crate) fn miss_of_some(&self, done: &Done) -> Result<Option<Miss>, Fault> {
        if let Some(miss) = self.miss_of_left(done)? {
            return Ok(Some(miss));
        }
        if !self.file.is_empty() && !is_like(&self.file, &done.file) {
            return self.missed("the file", &self.file, &done.file);
        }
        if !self.said.is_empty() && !is_like(&self.said, &done.said) {
            return self.missed("the output", &self.said, &done.said);
        }
        self.miss_of_status(done)
    }

    fn miss_of_status(&self, done: &Done) -> Result<Option<Miss>, Fault> {
        if self.status == Some(done.status) {
            return Ok(None);
        }
        self.missed(
            "the status",
            &digits_of(self.status.unwrap_or(0)),
            &digits_of(done.status),
        )
    }

    fn miss_of_left(&self, done: &Done) -> Result<Option<Miss>, Fault> {
        let Some(left) = &done.left else {
            return Ok(None);
        };
        let Some(first) = self.left.first() else {
            return Ok(None);
        };
        if self
            .left
            .iter()
            .any(|wanted| wanted.as_slice() == left.as_slice())
        {
            return Ok(None);
        }
        self.missed("the disk", first, left)
    }

    fn miss_of_file(&self, done: &Done) -> Result<Option<Miss>, Fault> {
        if !self.is_partial() {
            if is_like(&self.file, &done.file) {
                return Ok(None);
            }
            return self.missed("the file", &self.file, &done.file);
        }
        for shown in &self.shown {
            let part = done.file.get(shown.place..).unwrap_or(&[]);
            if !is_like(&shown.bytes, part.get(..shown.bytes.len()).unwrap_or(&[])) {
                return self.missed("a part of the file", &shown.bytes, part);
            }
        }
        match self.size {
            Some(size) if size != done.file.len() as u64 => {
                self.missed("the size of the file", &[], &done.file)
            }
            _ => Ok(None),
        }
    }

    fn missed(&self, what: &'static str, wanted: &[u8], got: &[u8]) -> Result<Option<Miss>, Fault> {
        Ok(Some(Miss {
            what,
            wanted: wanted.to_vec(self.alloc)?,
            got: got.to_vec(self.alloc)?,
        }))
    }
}

/// Whether bytes are those that are wanted, where some may be any.
fn is_like(wanted: &[u8], got: &[u8]) -> bool {
    wanted.len() == got.len()
        && wanted
            .iter()
            .zip(got.iter())
            .all(|(want, have)| *want == ANY || *want == *have)
}

/// A status in three decimal digits.
fn digits_of(status: u8) -> [u8; 3] {
    [
        b'0' + status / 100,
        b'0' + status / 10 % 10,
        b'0' + status % 10,
    ]
}
