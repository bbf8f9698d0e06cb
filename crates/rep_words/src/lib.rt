//! The words of the command line: which command they ask for, on which of them it works, and the rig of sources, sinks, disk
//! and clock that it is handed.
#![tactic(auto)]

mod errand;
mod period;
mod rig;
mod words;

pub use errand::{Command, Errand, WordsFault, plan_words};
pub use period::Period;
pub use rig::{Outcome, Rig};
pub use words::{Asked, asked_of};
