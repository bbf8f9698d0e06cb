//! Why marks aren't paired.
use rep_fields::Day;
use thiserror::Error;

/// Marks aren't paired.
#[derive(Clone, Copy, Debug, PartialEq, Eq, Error)]
pub enum PairFault {
    /// The day is the first whose journey has a pair number above 999.
    #[error("more than 999 pairs of marks on day {number}", number = .day.number)]
    TooManyPairs { day: Day },
    /// There was not enough memory.
    #[error("not enough memory")]
    OutOfMemory,
}
