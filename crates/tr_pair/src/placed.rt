//! Marks with what they are in their journey.
use tr_days::Mark;

/// What a mark is (`tpMarc` of record 05 of Portaria MTP 671/2021, annex VI).
#[derive(Clone, Copy, Debug, PartialEq, Eq)]
pub enum Sort {
    /// Work begins (`E`).
    Entry,
    /// Work ends (`S`).
    Exit,
    /// A clocking that doesn't count (`D`).
    Dropped,
}

/// A mark with its place in the pairs of its journey.
#[derive(Clone, Copy, Debug, PartialEq, Eq)]
pub struct Placed {
    /// The mark.
    pub mark: Mark,
    /// What it is.
    pub sort: Sort,
    /// The number of its pair (`seqEntSaida`), 1 to 999 in each journey, and 0 for a mark that doesn't count.
    pub pair: u16,
}
