//! The absences of a link in a period, in their order, and the balance of its hour bank.
#![tactic(auto)]

mod bank;
mod listing;

pub use bank::balance;
pub use listing::absences;
