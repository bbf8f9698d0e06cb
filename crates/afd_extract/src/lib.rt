//! The AFD of a period, out of a journal: which numbers a period has, and the writer of the file (Portaria MTP 671/2021,
//! annex V). Frames are read one after another, and written in pieces of nearly 64 KiB; no memory is taken.
//!
//! ```rust
//! let range = period(&days, from, to);
//! let bytes = write_afd(&mut journal, range, &head, &mut sink)?;
//! ```
#![tactic(auto)]

mod error;
mod laws;
mod output;
mod periods;
mod tally;
mod writing;

pub use error::WriteFail;
pub use laws::an_extract_is_the_file_of_its_records;
pub use periods::period;
pub use writing::write_afd;
