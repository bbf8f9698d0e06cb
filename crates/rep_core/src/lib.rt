//! The recorder's core: what is made of each request over the history so far, how the history goes on, and the hash
//! chain of its clockings. The rules are this project's own, over the records of Portaria MTP 671/2021, annex V.
//!
//! A history is a list of entries, and the entry at place `i`, counted from 0, has the number `i + 1`. A `Core` stands
//! for one history. It serves a request so:
//!
//! ```rust
//! let reply = match core.decide(&request, core.kept(&request)) {
//!     Verdict::Fresh => {
//!         core.reserve(&request)?;
//!         core.accept(&request, stamp);
//!         core.receipt(&request)
//!     }
//!     settled => core.reply(&request, settled),
//! };
//! ```
//!
//! Only `reserve` takes memory. After it, `line` gives the line of the record that `accept` will add. Where that line is at
//! hand, `accept_line` adds the record with the hash in it, and hashes nothing.
#![tactic(auto)]

mod index;
mod laws;
mod numbers;
mod origins;
mod recorder;
mod registration;
mod row;
mod search;
mod verdict;

pub use laws::{
    a_core_stands_for_one_history, a_greater_limit_refuses_no_more,
    a_receipt_stays_as_the_history_grows, a_recorded_entry_fits, a_recorded_request_is_a_repeat,
    a_request_has_one_verdict, an_entry_adds_its_line, clockings_are_chained,
    each_entry_has_its_line, recording_keeps_a_history_founded, recording_keeps_a_history_valid,
};
pub use recorder::Core;
pub use verdict::{Verdict, WorkerState};
