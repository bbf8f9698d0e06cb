//! The program as one call: what its words ask for, done over the sources, the sinks, the disk and the clock that are handed in.
//! The program's `main` makes the real ones and calls `top`.
#![tactic(auto)]

mod creating;
mod drilling;
mod extracting;
mod giving;
mod printing;
mod program;
mod running;
mod wrong_words;

pub use program::top;
pub use rep_words::{
    Asked, Command, Errand, Outcome, Period, Rig, WordsFault, asked_of, plan_words,
};
