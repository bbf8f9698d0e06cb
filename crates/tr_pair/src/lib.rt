//! Entries, exits and pairs: what each mark of a journey is.
#![tactic(auto)]

mod fault;
mod pairing;
mod placed;

pub use fault::PairFault;
pub use pairing::pair;
pub use placed::{Placed, Sort};
