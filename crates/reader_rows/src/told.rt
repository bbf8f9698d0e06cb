use rep_fields::{Cpf, Day, EmployerId, Stamp};
use std::alloc::{AllocError, Global};

/// Stands between two parts of what is told.
const BETWEEN: &[u8] = b", ";

/// What is told of a value: its parts, each a name and what it is.
#[derive(Drop)]
pub(crate) struct Told {
    pub(crate) bytes: Vec<u8>,
}

impl Told {
    pub(crate) fn new(alloc: Global) -> Self {
        Told {
            bytes: Vec::new(alloc),
        }
    }

    /// A part without a name.
    pub(crate) fn word(&mut self, word: &[u8]) -> Result<(), AllocError> {
        if !self.bytes.is_empty() {
            self.bytes.extend_from_slice(BETWEEN)?;
        }
        self.bytes.extend_from_slice(word)
    }

    /// A part and what it is, as it stands.
    pub(crate) fn shown(&mut self, name: &[u8], text: &[u8]) -> Result<(), AllocError> {
        self.word(name)?;
        self.bytes.push(b' ')?;
        self.bytes.extend_from_slice(text)
    }

    pub(crate) fn text(&mut self, name: &[u8], text: &[u8]) -> Result<(), AllocError> {
        self.word(name)?;
        self.bytes.extend_from_slice(b" \"")?;
        self.bytes.extend_from_slice(text)?;
        self.bytes.push(b'"')?;
        Ok(())
    }

    pub(crate) fn number(&mut self, name: &[u8], number: u64) -> Result<(), AllocError> {
        self.word(name)?;
        self.bytes.push(b' ')?;
        self.push_decimal(number)
    }

    pub(crate) fn signed(&mut self, name: &[u8], number: i64) -> Result<(), AllocError> {
        self.word(name)?;
        self.bytes.push(b' ')?;
        if number < 0 {
            self.bytes.push(b'-')?;
        }
        self.push_decimal(number.unsigned_abs())
    }

    pub(crate) fn numbers(&mut self, name: &[u8], numbers: &[u32]) -> Result<(), AllocError> {
        self.word(name)?;
        for number in numbers {
            self.bytes.push(b' ')?;
            self.push_decimal(u64::from(*number))?;
        }
        Ok(())
    }

    /// A number, or its name with `no` before it.
    pub(crate) fn number_or_no(
        &mut self,
        name: &[u8],
        number: Option<u64>,
    ) -> Result<(), AllocError> {
        match number {
            Some(number) => self.number(name, number),
            None => self.shown(b"no", name),
        }
    }

    pub(crate) fn stamp(&mut self, name: &[u8], stamp: &Stamp) -> Result<(), AllocError> {
        self.shown(name, &stamp.write())
    }

    pub(crate) fn day(&mut self, name: &[u8], day: &Day) -> Result<(), AllocError> {
        self.shown(name, &day.write())
    }

    pub(crate) fn cpf(&mut self, name: &[u8], cpf: &Cpf) -> Result<(), AllocError> {
        self.number(name, cpf.number)
    }

    pub(crate) fn employer(&mut self, id: &EmployerId) -> Result<(), AllocError> {
        match id {
            EmployerId::Cnpj(number) => self.number(b"cnpj", *number),
            EmployerId::Person(cpf) => self.cpf(b"cpf", cpf),
        }
    }

    fn push_decimal(&mut self, number: u64) -> Result<(), AllocError> {
        let mut buffer = itoa::Buffer::new();
        self.bytes
            .extend_from_slice(buffer.format(number).as_bytes())
    }
}
