use crate::told::Told;
use std::alloc::{AllocError, Global};

/// What a reader answers.
#[derive(Drop)]
pub(crate) struct Answer {
    /// The text that it was given.
    pub(crate) text: Vec<u8>,
    /// What it says: a value's parts, a fault, or what a lenient reader notes.
    pub(crate) told: Vec<u8>,
    /// The value's parts where the reader notes something beside them.
    pub(crate) value: Option<Vec<u8>>,
    /// The value printed again, where there is a printer.
    pub(crate) written: Option<Vec<u8>>,
}

impl Answer {
    /// A value that is told, and nothing beside it.
    pub(crate) fn of(alloc: Global, text: &[u8], told: Told) -> Result<Answer, AllocError> {
        Ok(Answer {
            text: text.to_vec(alloc)?,
            told: told.bytes,
            value: None,
            written: None,
        })
    }

    /// A value, and the text that is printed for it.
    pub(crate) fn printed(
        alloc: Global,
        text: &[u8],
        told: Told,
        written: &[u8],
    ) -> Result<Answer, AllocError> {
        Ok(Answer {
            text: text.to_vec(alloc)?,
            told: told.bytes,
            value: None,
            written: Some(written.to_vec(alloc)?),
        })
    }

    /// A word alone, as `none`.
    pub(crate) fn word(alloc: Global, text: &[u8], word: &[u8]) -> Result<Answer, AllocError> {
        let mut told = Told::new(alloc);
        told.word(word)?;
        Answer::of(alloc, text, told)
    }

    /// The number of the field that the text is refused for.
    pub(crate) fn off(alloc: Global, text: &[u8], field: u8) -> Result<Answer, AllocError> {
        let mut told = Told::new(alloc);
        told.number(b"off", u64::from(field))?;
        Answer::of(alloc, text, told)
    }

    /// What is told of a value.
    pub(crate) fn value(&self) -> &[u8] {
        match &self.value {
            Some(value) => value,
            None => &self.told,
        }
    }
}
