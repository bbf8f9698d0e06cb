ghost use Rattle.std.specs.Prelude.{◌≡◌};
ghost use Rattle.tr_days.specs.Marks.{kind_of, number_of};
ghost use Rattle.rep_fields.specs.Moment.{instant_of};

use crate::root::Root;
use rep_fields::{Day, Stamp};
use std::marker::Model;

/// A mark of a link, with the day on which it counts.
#[derive(Clone, Copy, Debug, PartialEq, Eq)]
pub struct Mark {
    /// When the mark is.
    pub at: Stamp,
    /// The journey day: the day on which the mark counts.
    pub day: Day,
    /// Where it comes from.
    pub from: Root,
}

impl Model for Mark {
    ghost use Rattle.tr_days.specs.Journey.{JourneyMark};

    ghost Value = { JourneyMark };

    ghost view = { λ m. record { at = m.at; day = m.day; from = m.from } };

    ghost inverse = { λ m. record { at = m.at; day = m.day; from = m.from } };
}

impl Mark {
    // What marks are put in order by: journey day, instant, and where they come from.
    pub(crate) fn rank(&self) -> (u32, i64, u8, u32)
        ensures { result ≡ (self.now.day, instant_of self.now.at, kind_of self.now.from, number_of self.now.from) }
    {
        let (kind, number) = kind_and_number(&self.from);
        (self.day.number, self.at.instant_minute(), kind, number)
    }
}

// Where a mark comes from, as numbers: originals first, and each kind by its number.
fn kind_and_number(from: &Root) -> (u8, u32)
    ensures { result ≡ (kind_of from.now, number_of from.now) }
{
    match from {
        Root::Original { nsr, .. } => (0, *nsr),
        Root::Included { place } => (1, *place),
    }
}
