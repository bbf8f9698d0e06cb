//! The turn: exclusive steps of numbered participants over one guarded state, the *book*.
//!
//! ```rust
//! let (turn, passes) = Turn::new(rt, alloc, book, count)?;
//! let answer = turn.with(rt, &mut pass, &mut job);
//! let closed = turn.close(passes);
//! ```
//!
//! Each participant has a token, a [`Pass`]. By [`Turn::with`] it has the book for itself, works on it by a [`Job`], and
//! makes visible to all how many entries the book's history has then. [`Turn::front`] looks at that count, and waits for
//! nobody. The book has a log: a list of notes, each with the number of the participant whose step made it.
//!
//! All that is promised follows from one rule over five words and a slot, `IsOrderly` in `specs/Rule.antt`, which each
//! atomic step keeps. A thread that doesn't find the book yields a few times and then parks, and whoever gives the book
//! back wakes one. That a thread which waits is woken is tested, and no clause says it. Nothing is said of progress,
//! fairness, time, or the order of steps between participants that told each other nothing.
#![tactic(auto)]

mod held;
mod note;
mod pass;
mod rule;
mod steps;
mod turn;
mod view;

pub use held::{Held, Job};
pub use note::{Note, What};
pub use pass::Pass;
pub use turn::{Closed, NoTurn, Turn};
