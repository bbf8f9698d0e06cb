//! What the log of a guarded state says.
use std::collections::LinkedList;

/// What one note says.
#[derive(Clone, Copy, Debug, PartialEq, Eq)]
pub enum What {
    /// An entry of the history, by the collector and the sequence number of its request. `shares`
    /// is true where the entry has the clock reading of the entry before it.
    Entry { origin: u16, seq: u64, shares: bool },
    /// A reading of the clock, in minutes since 1970-01-01T00:00Z, that made no entry.
    Reading { minute: u32 },
    /// A call that met a fault of the device (`device` is true) or of the clock (`device` is
    /// false). `stops` is true where the store is stopped after that call.
    Fault { device: bool, stops: bool },
}

/// One note of the log, with the number of the participant whose exclusive step made it.
#[derive(Clone, Copy, Debug, PartialEq, Eq)]
pub struct Note {
    pub owner: u32,
    pub what: What,
}

/// What can be seen of a guarded state: its notes, and the entries of its history where they are
/// known. It stands in clauses alone, and no value of it is made.
pub struct Seen<E> {
    pub notes: LinkedList<Note>,
    pub past: Option<LinkedList<E>>,
}
