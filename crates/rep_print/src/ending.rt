//! How `print` ends.
use rep_report::Ending;

/// How `print` ends.
#[derive(Clone, Copy, Debug, PartialEq, Eq)]
pub enum PrintEnding {
    /// The lane has no first line, or its first line is no head of an operator's lane.
    NoHead,
    /// Line 2 is missing, or isn't an employer's request that reads.
    NoEmployer,
    /// The lane began, or something of the outside failed, or memory was short.
    Served(Ending),
}

impl PrintEnding {
    ghost use Rattle.std.specs.Prelude.{◌≡◌};
    ghost use Rattle.rep_print.specs.Ending.{status_of};

    /// The status that the program ends with.
    pub fn status(self) -> u8
        ensures { result ≡ status_of self }
    {
        match self {
            PrintEnding::NoHead | PrintEnding::NoEmployer => 3,
            PrintEnding::Served(ending) => ending.status(),
        }
    }
}
