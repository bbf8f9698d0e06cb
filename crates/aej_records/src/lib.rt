//! The lines of an AEJ, the electronic file of working days that a treatment program hands to the inspection: Portaria
//! MTP 671/2021, annex VI (version 001).
//!
//! A line is an [`AejLine`]. [`print`] writes it, and [`read`] reads what is written for a line whose texts have no bar
//! and are empty only where they may be, and other spellings of its values too. No function here takes memory, and no
//! line has its end, CR LF, here.
//!
//! ```rust
//! let text = aej_records::print(&line);
//! let found = aej_records::read(text.bytes())?;
//! ```
#![tactic(auto)]

mod error;
mod fields;
mod held_line;
mod kind;
mod laws;
mod line;
mod reading;
mod times;
mod value;
mod writing;

pub use error::BadAej;
pub use held_line::HeldLine;
pub use kind::LineType;
pub use laws::{read_lines_can_be_written, written_lines_are_lines};
pub use line::AejLine;
pub use reading::{line_type, read};
pub use times::{MOST_TIMES, Times};
pub use writing::{LONGEST_WRITTEN, SIGNATURE_LEN, print, signature};
