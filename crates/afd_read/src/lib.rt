//! Reads an AFD, also one that another recorder made: the file of clockings of Portaria MTP 671/2021, annex V (layout
//! 003). The whole text is read into one buffer, with an index of its lines; of the lines only the first, the head, is
//! judged here.
//!
//! ```rust
//! let afd = afd_read::read_afd(alloc, &mut source)?;
//! for number in 1..=afd.count() {
//!     let line = afd.line(number);
//! }
//! ```
#![tactic(auto)]

mod afd;
mod fault;
mod filling;
mod index;
mod line_end;
mod reading;

pub use afd::Afd;
pub use fault::AfdFault;
pub use reading::read_afd;
