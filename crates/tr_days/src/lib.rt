//! Days and marks of a treatment: which link of a plan covers a clocking, on which day a mark counts, and the marks of a
//! link in their order.
#![tactic(auto)]

mod clocking;
mod covering;
mod listing;
mod mark;
mod originals;
mod root;

pub use clocking::Clocking;
pub use covering::{cover, journey};
pub use listing::marks;
pub use mark::Mark;
pub use originals::Originals;
pub use root::Root;
