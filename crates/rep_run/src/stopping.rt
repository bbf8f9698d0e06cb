//! How a command stops, and what it says then.
ghost use Rattle.std.specs.Prelude.{◌≡◌};
ghost use Rattle.rep_run.specs.Creating.{last_text};
ghost use Rattle.rep_run.specs.Command.{refusal_text};
ghost use Rattle.rep_run.specs.Steps.{stopping_of};
ghost use Rattle.rep_report.specs.Saying.{closing_text};

use crate::refusal::Refusal;
use rep_fields::Row;
use rep_journal::WhyNot;
use rep_report::{
    Ending, OutputLine, blank_line, damaged_line, fault_line, foreign_line, lane_fault_line,
    present_line, site_key_line, site_text_line,
};
use rep_store::StoreWhy;

/// How a command stops.
#[derive(Clone, Copy, Debug, PartialEq, Eq)]
pub enum Stopping {
    /// A text or contents were refused.
    Refused(Refusal),
    /// It was done, or something of the outside failed, or memory was short, or a text was too long.
    Ended(Ending),
}

impl Stopping {
    ghost use Rattle.std.specs.Prelude.{◌≡◌};
    ghost use Rattle.rep_run.specs.Creating.{status_of};

    /// The status that the program ends with.
    pub fn status(self) -> u8
        ensures { result ≡ status_of self }
    {
        match self {
            Stopping::Refused(Refusal::SiteText | Refusal::SiteField(_) | Refusal::NoHead) => 3,
            Stopping::Refused(
                Refusal::Foreign | Refusal::Blank | Refusal::Present | Refusal::Damaged { .. },
            ) => 9,
            Stopping::Ended(ending) => ending.status(),
        }
    }
}

/// The last line on the output, empty where there is nothing to say.
pub fn last_line(stopping: Stopping) -> OutputLine
    ensures { result ≡ last_text stopping }
{
    match stopping {
        Stopping::Refused(why) => refusal_line(why),
        Stopping::Ended(ending) => ending_line(ending),
    }
}

// The line of a refusal.
fn refusal_line(why: Refusal) -> OutputLine
    ensures { result ≡ refusal_text why }
{
    match why {
        Refusal::SiteText => site_text_line(),
        Refusal::SiteField(key) => site_key_line(key.name().as_bytes()),
        Refusal::NoHead => lane_fault_line(1, 1),
        Refusal::Foreign => foreign_line(),
        Refusal::Blank => blank_line(),
        Refusal::Present => present_line(),
        Refusal::Damaged { at } => damaged_line(at),
    }
}

// The line of a fault.
fn ending_line(ending: Ending) -> OutputLine
    ensures { result ≡ closing_text ending }
{
    match ending {
        Ending::AllAnswered | Ending::SomeRefused => Row::new(),
        Ending::SourceFault
        | Ending::SinkFault
        | Ending::DeviceFault
        | Ending::ClockFault
        | Ending::OutOfMemory
        | Ending::InputLimit => fault_line(ending.status()),
    }
}

/// How a command stops where there is no store.
pub fn no_store(why: StoreWhy) -> Stopping
    ensures { result ≡ stopping_of why }
{
    match why {
        StoreWhy::Journal(WhyNot::Foreign) => Stopping::Refused(Refusal::Foreign),
        StoreWhy::Journal(WhyNot::Blank) => Stopping::Refused(Refusal::Blank),
        StoreWhy::Journal(WhyNot::Present) => Stopping::Refused(Refusal::Present),
        StoreWhy::Journal(WhyNot::Damaged { at }) => Stopping::Refused(Refusal::Damaged { at }),
        StoreWhy::Journal(WhyNot::DeviceFault) => Stopping::Ended(Ending::DeviceFault),
        StoreWhy::Journal(WhyNot::OutOfMemory) => Stopping::Ended(Ending::OutOfMemory),
        StoreWhy::ClockFault => Stopping::Ended(Ending::ClockFault),
    }
}
