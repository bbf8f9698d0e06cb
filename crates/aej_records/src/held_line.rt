ghost use Rattle.std.specs.Prelude.{◌≡◌};

use crate::line::AejLine;
use std::marker::Model;

/// A line in a list of another crate's: it is seen as the line.
#[derive(Clone, Copy, Debug, PartialEq, Eq)]
pub struct HeldLine {
    line: AejLine,
}

impl Model for HeldLine {
    ghost use Rattle.aej_records.specs.declared.line.AejLine.{AejLine};

    ghost Value = { AejLine };

    ghost view = { λ held. held.line };

    ghost inverse = { λ line. record { line = line } };
}

impl HeldLine {
    /// Holds the line.
    pub fn new(line: AejLine) -> HeldLine
        ensures { result ≡ line }
    {
        HeldLine { line }
    }

    /// The line.
    pub fn line(&self) -> &AejLine
        ensures { result.now ≡ self.now }
    {
        &self.line
    }
}
