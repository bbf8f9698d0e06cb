//! The plan of a treatment: the program, working hours, who works under them, and what is changed by hand, as a file in
//! TOML says them (`plan.toml`). The reader answers the plan, or the first fault of the file. The texts of the errors are
//! for people: a fault line has their numbers.
#![tactic(auto)]

mod absence;
mod check;
mod disregard;
mod disregards;
mod fault;
mod fields;
mod include;
mod link;
mod links;
mod plan;
mod program;
mod rows;
mod schedule;
mod table;

pub use absence::Absence;
pub use disregard::Disregard;
pub use disregards::Disregards;
pub use fault::PlanFault;
pub use include::Include;
pub use link::Link;
pub use links::Links;
pub use plan::{Absences, Includes, Plan, Schedules};
pub use program::Program;
pub use rows::Rows;
pub use schedule::{Hours, Schedule};
