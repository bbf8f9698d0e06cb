//! The recorder's store: its history, kept in a journal on a disk, and the clock by which requests are recorded.
//!
//! `Store::create` makes the journal of a site, and `Store::reopen` finds it. `submit` answers a request: with a receipt
//! once its entry is sure on the disk, or with a refusal. A crash at any moment leaves a history that the next
//! `reopen` finds, with each entry that had its receipt. `extract` writes the AFD of a period out of the history, `size`
//! tells how long it is, and `slip` gives one entry.
#![tactic(auto)]

mod creating;
mod days;
mod device;
mod error;
mod extracting;
mod filing;
mod founding;
mod laws;
mod reopening;
mod store;
mod submitting;

pub use error::{ExtractFail, NoStore, SlipFail, Stop, StoreWhy};
pub use extracting::Lead;
pub use filing::Filed;
pub use laws::{an_afd_is_one_text, image_after_a_crash};
pub use store::Store;
