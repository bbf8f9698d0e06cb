//! `drill`: a schedule of events, one a line, played by a world of the sample site. What is seen of each event is said on the
//! output.
#![tactic(auto)]

mod cutting;
mod ending;
mod playing;
mod saying;
mod schedule;

pub use ending::DrillEnding;
pub use playing::{DrillDone, SAMPLE_SITE, drill};
pub use saying::{drill_line, schedule_fault_line};
pub use schedule::read_event;
