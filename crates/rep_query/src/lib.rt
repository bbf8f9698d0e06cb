//! The commands that only read a journal: `extract` writes the AFD of a period out of it, and `receipt` the receipt of a
//! clocking. Each is handed its source, its sinks, the disk and the clock that it reads, and hands them back with the status
//! that the program ends with.
#![tactic(auto)]

mod extracting;
mod finding;
mod lines;
mod no_clock;
mod opening;
mod receipts;
mod telling;
mod writing;

pub use extracting::{ExtractDone, extract, refuse_dates};
pub use receipts::{ReceiptDone, receipt};
