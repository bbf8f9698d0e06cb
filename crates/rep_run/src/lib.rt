//! The commands over a journal: `create` makes it, and `run` serves a lane over it. Each is handed its sources, its sinks,
//! the disk and the clock, and hands them back with the status that the program ends with.
#![tactic(auto)]

mod creating;
mod desk;
mod refusal;
mod running;
mod serving;
mod settings;
mod stopping;
mod texts;

pub use creating::{CreateDone, create};
pub use refusal::Refusal;
pub use running::{RunDone, run};
pub use settings::read_site;
pub use stopping::{Stopping, last_line, no_store};
