//! A world in which the recorder is sent requests, answers them, fails, crashes and is opened again, event by event. It is
//! the recorder itself, a store over a disk in memory, with what was sent and what was answered beside it.
//!
//! The type keeps what the recorder promises of every list of events (`IsWorld`): its bytes, and whatever a crash may leave
//! of them, keep one history that has the entry of every receipt that was ever issued, also of those that were lost on the
//! way. And each event keeps what was made sure of (`GoesOn`).
#![tactic(auto)]

mod dial;
mod event;
mod naming;
mod recorder;
mod standing;
mod steps;
mod world;

pub use event::{Event, Seen, WorldStop};
pub use world::World;
