/// How a drill ends. Each ending has its status.
#[derive(Clone, Copy, Debug, PartialEq, Eq)]
pub enum DrillEnding {
    /// All lines were played, and no refusal was said.
    AllPlayed,
    /// All lines were played, and a refusal was said.
    SomeRefused,
    /// The line with this number says no event, or one that names a message that wasn't sent.
    Refused { line: u64 },
    SourceFault,
    SinkFault,
    OutOfMemory,
    /// The text has more bytes than a text may have.
    InputLimit,
}

impl DrillEnding {
    ghost use Rattle.std.specs.Prelude.{◌≡◌, ◌↔◌, IsTrue};
    ghost use Rattle.rep_drill.specs.Playing.{IsWhole, status_of};

    /// The status that the program ends with.
    pub fn status(self) -> u8
        ensures { result ≡ status_of self }
    {
        match self {
            DrillEnding::AllPlayed => 0,
            DrillEnding::SomeRefused => 1,
            DrillEnding::Refused { line: _ } => 3,
            DrillEnding::SourceFault => 4,
            DrillEnding::SinkFault => 5,
            DrillEnding::OutOfMemory => 8,
            DrillEnding::InputLimit => 10,
        }
    }

    /// Whether all lines were played.
    pub fn is_whole(self) -> bool
        ensures { IsTrue result ↔ IsWhole self }
    {
        match self {
            DrillEnding::AllPlayed | DrillEnding::SomeRefused => true,
            DrillEnding::Refused { line: _ }
            | DrillEnding::SourceFault
            | DrillEnding::SinkFault
            | DrillEnding::OutOfMemory
            | DrillEnding::InputLimit => false,
        }
    }
}
