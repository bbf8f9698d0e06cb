//! The hash chain of the clockings of an AFD (Portaria MTP 671/2021, annex V): each clocking carries the SHA-256 of
//! its own fields and of the hash of the clocking before it.
//!
//! ```rust
//! let first = afd_chain::link(None, &payload);
//! let second = afd_chain::link(Some(&first), &next_payload);
//! ```
//!
//! No function here takes memory.
#![tactic(auto)]

mod chain;

pub use chain::{PAYLOAD_LEN, link, verify};
