//! The receipt of a clocking: the text that a worker gets.
//!
//! ```rust
//! let text = receipt(alloc, &site, &entry, nsr, &hash, &employer, worker_name)?;
//! ```
#![tactic(auto)]

mod receipts;
mod rows;

pub use receipts::{ReceiptFault, receipt};
