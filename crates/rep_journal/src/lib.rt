//! A journal on a disk: lines of the AFD in frames, each with a gate in front of it that is opened once the frame is
//! sure. `docs/journal-format.md` has the layout.
#![tactic(auto)]

mod bytes;
mod error;
mod format;
mod frame;
mod frame_list;
mod head;
mod journal;
mod laws;
mod putting;
mod recovery;
mod scan;
mod stop;
mod vacant;

pub use error::{DeviceFault, NotMade, Stopped, WhyNot};
pub use format::MOST_FRAMES;
pub use frame::Frame;
pub use journal::Journal;
pub use laws::{contents_are_of_one_kind, contents_tell_the_frames};
pub use vacant::Vacant;
