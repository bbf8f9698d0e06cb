use std::alloc::{AllocError, AllocFailed};

/// Why a file of cases can't be played: its own mistake, or want of memory.
#[derive(Clone, Copy, Debug)]
pub(crate) enum Fault {
    /// There was not enough memory.
    Memory,
    /// A line that is no line of such a file where it stands: its number, from 1, and what is the matter.
    Line { number: u64, why: &'static str },
    /// The output failed.
    Output,
    /// A case that came to its end, at this line, and lacks something.
    Case { number: u64, why: &'static str },
}

impl From<AllocError> for Fault {
    fn from(_: AllocError) -> Self {
        Fault::Memory
    }
}

impl<T: Drop> From<AllocFailed<T>> for Fault {
    fn from(_: AllocFailed<T>) -> Self {
        Fault::Memory
    }
}
