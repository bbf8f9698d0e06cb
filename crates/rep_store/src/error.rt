ghost use Rattle.std.specs.Prelude.{◌≡◌};

use rep_journal::{NotMade, WhyNot};

/// Why there is no store.
#[derive(Clone, Copy, Debug, PartialEq, Eq)]
pub enum StoreWhy {
    /// There is no journal on the disk, or none was made.
    Journal(WhyNot),
    /// The clock failed.
    ClockFault,
}

/// A disk and a clock of which no store was made.
#[derive(Drop)]
pub struct NoStore<D, C> {
    /// The disk, handed back.
    pub disk: D,
    /// The clock, handed back.
    pub clock: C,
    /// Why.
    pub why: StoreWhy,
}

impl<D, C> NoStore<D, C> {
    ghost use Rattle.rep_store.specs.Outcome.{refusal_of};

    // Where the journal was refused.
    pub(crate) fn of(none: NotMade<D>, clock: C) -> NoStore<D, C>
        ensures { result ≡ refusal_of none clock }
    {
        NoStore {
            disk: none.disk,
            clock,
            why: StoreWhy::Journal(none.why),
        }
    }
}

/// Why an extraction isn't whole.
#[derive(Clone, Copy, Debug, PartialEq, Eq)]
pub enum ExtractFail {
    /// The store stopped before, when the disk failed while an entry was put.
    Stopped {
        /// How often the disk had failed for the store by then, the last time in that call.
        faults: u64,
    },
    /// The clock failed in this call, and nothing was written.
    ClockFault,
    /// The sink failed in this call.
    SinkFault,
    /// The disk failed in this call.
    DeviceFault,
}

/// Why there is no entry.
#[derive(Clone, Copy, Debug, PartialEq, Eq)]
pub enum SlipFail {
    /// The history has no entry with that number.
    NoSuchNsr,
    /// The disk failed in this call.
    DeviceFault,
    /// The store stopped before, when the disk failed while an entry was put.
    Stopped {
        /// How often the disk had failed for the store by then, the last time in that call.
        faults: u64,
    },
}

/// Why a request has no reply.
#[derive(Clone, Copy, Debug, PartialEq, Eq)]
pub enum Stop {
    /// The store stopped before, when the disk failed while an entry was put.
    Stopped {
        /// How often the disk had failed for the store by then, the last time in that call.
        faults: u64,
    },
    /// The disk failed in this call, and the store has stopped. A crash may have left the request's entry, or not.
    DeviceFault,
    /// The clock failed in this call, and nothing changed.
    ClockFault,
    /// There wasn't enough memory, and nothing changed.
    OutOfMemory,
}
