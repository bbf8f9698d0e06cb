//! How a command ends once it has begun to serve.

/// How a command ends once it has begun to serve. Each ending has its status.
#[derive(Clone, Copy, Debug, PartialEq, Eq)]
pub enum Ending {
    /// All was done, and nothing refused.
    AllAnswered,
    /// All was done, and some request refused.
    SomeRefused,
    SourceFault,
    SinkFault,
    DeviceFault,
    ClockFault,
    OutOfMemory,
    /// A text has more bytes than a text may have.
    InputLimit,
}

impl Ending {
    ghost use Rattle.std.specs.Prelude.{◌≡◌};
    ghost use Rattle.rep_report.specs.Saying.{status_of};

    /// The status that the program ends with.
    pub fn status(self) -> u8
        ensures { result ≡ status_of self }
    {
        match self {
            Ending::AllAnswered => 0,
            Ending::SomeRefused => 1,
            Ending::SourceFault => 4,
            Ending::SinkFault => 5,
            Ending::DeviceFault => 6,
            Ending::ClockFault => 7,
            Ending::OutOfMemory => 8,
            Ending::InputLimit => 10,
        }
    }
}
