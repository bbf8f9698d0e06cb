//! One collector's lane: a text whose first line is its head and whose other lines ask for requests, one after another.
//! Each line is answered by a desk, and its reply is written to the lane's sink; an operator's line may order an
//! extraction, which the desk writes there.
//!
//! A desk is whatever serves requests: a recorder over a disk, or one in memory. `run` promises that the desk went by its
//! own steps in the order of the lines, and that the sink got the reply lines of their answers and the extractions.
//! `IsServing` says of a desk that it serves over a history, and then the lines were served over it one after another
//! (`ServesLines`).
//!
//! ```rust
//! let mut lines = lines_of(source);
//! let head = read_head(&mut lines)?;
//! let done = run(&head, FIRST_LINE, lines, sink, &mut desk);
//! ```
#![tactic(auto)]

mod answering;
mod desk;
mod head;
mod lane;
mod laws;
mod reading;

pub use answering::{Kind, answer_line, refuse_long_line};
pub use desk::{Desk, DeskFail};
pub use head::{NoHead, read_head};
pub use lane::{End, FIRST_LINE, LaneDone, Tally, run};
pub use laws::{
    Extraction, served_lines_have_the_replies_of_their_fronts, serving_lines_adds_entries,
    serving_lines_keeps_a_history_sound,
};
pub use reading::{lines_of, next_line};
