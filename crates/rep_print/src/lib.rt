//! `print`: a dry run of one operator's lane over an empty history. Its lines are kept in a journal on a disk in memory
//! that never fails. Each line is served, its reply goes to the output, and the AFD of the whole history to a file.
#![tactic(auto)]

mod afd;
mod closing;
mod command;
mod desk;
mod ending;
mod journal;
mod keeping;
mod lane;
mod laws;

pub use command::{PrintDone, print};
