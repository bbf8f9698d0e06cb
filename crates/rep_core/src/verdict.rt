use afd_records::Op;
use rep_fields::Stamp;

/// What the recorder makes of a request over the history so far: the first case that holds.
#[derive(Clone, Copy, Debug, PartialEq, Eq)]
pub enum Verdict {
    /// It was recorded before, with this number and this content.
    Repeat { nsr: u32 },
    /// Another content was recorded under its origin and sequence number, with this number.
    Conflict { nsr: u32 },
    /// The worker that it names isn't registered as it needs.
    Unregistered,
    /// There is no number left.
    Exhausted,
    /// It is to be recorded.
    Fresh,
}

/// What a worker's last registration record says.
#[derive(Clone, Copy, Debug, PartialEq, Eq)]
pub struct WorkerState {
    /// What was done.
    pub op: Op,
    /// When the record was taken.
    pub at: Stamp,
}
