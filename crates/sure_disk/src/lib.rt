//! A disk in memory that never fails: what is said of it holds without a word on faults.
#![tactic(auto)]

mod disk;

pub use disk::{SureDisk, no_fails};
