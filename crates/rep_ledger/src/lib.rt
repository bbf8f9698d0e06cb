//! The history that a journal keeps: its lines, one after another, are those of the entries of one history.
//!
//! A line says its record, and with the pair that it came by it says the request that became the record. So the history
//! is read from the lines alone: `take_in` records the entry of the next line in a core.
#![tactic(auto)]

mod asked;
mod framing;
mod laws;
mod replaying;
mod taking;

pub use asked::{asked_of, founding_of};
pub use framing::frame_of;
pub use laws::{contents_are_of_one_kind, contents_tell_the_history, safety_goes_on};
pub use replaying::{NotReplayed, replay};
pub use taking::{NotTaken, take_in};
