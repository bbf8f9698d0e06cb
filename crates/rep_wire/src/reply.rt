use rep_fields::Stamp;

/// Why a line got no receipt.
#[derive(Clone, Copy, Debug, PartialEq, Eq)]
pub enum Code {
    /// The line is off the grammar: the first field that is, counted from 1, or 0 for their number.
    Malformed { field: u8 },
    /// The worker isn't registered.
    Unregistered,
    /// Another request came by this pair of origin and sequence number, and has this number.
    Conflict { nsr: u32 },
    /// There is no number left.
    Exhausted,
    /// Three calls for the line were lost.
    LinkLost,
}

/// A receipt's contents. `marked` and `hash` are there for a clocking alone.
#[derive(Clone, Copy, Debug)]
pub struct Slip {
    pub nsr: u32,
    pub marked: Option<Stamp>,
    pub recorded: Stamp,
    pub hash: Option<[u8; 64]>,
}

/// What a request is answered.
#[derive(Clone, Copy, Debug)]
pub enum Answer {
    Receipt(Slip),
    Refused(Code),
}

/// An answer, and how many entries the history had when it was given.
#[derive(Clone, Copy, Debug)]
pub struct Reply {
    pub answer: Answer,
    pub front: u32,
}
