//! The lines of an AFD, the file of clockings that a recorder hands to the inspection: Portaria MTP 671/2021, annex V
//! (layout 003).
//!
//! A record is a [`Body`]; its line is written by [`print`] and read by [`read`], which takes just those lines. Each
//! record's line ends in its checksum, a clocking's in the hash that chains it to the clocking before, an event's in
//! nothing. The head, the trailer and the line for the signature stand round the records: [`print_head`],
//! [`print_trailer`] and [`signature`]. [`read_loose`] and [`read_head`] read what other recorders write otherwise too,
//! and tell of it in [`Notes`]; [`read_trailer`] takes just the lines of [`print_trailer`]. No function here takes
//! memory, and no line has its end, CR LF, here.
//!
//! ```rust
//! let line = afd_records::print(&body, 1, None);
//! let found = afd_records::read(line.bytes())?;
//! ```
#![tactic(auto)]

mod checksum;
mod error;
mod fields;
mod header;
mod header_reading;
mod lenient;
mod lenient_laws;
mod line;
mod loose_fields;
mod reading;
mod record;
mod trailer;
mod trailer_reading;
mod writing;

pub use checksum::crc16;
pub use error::{BadLine, Notes};
pub use header::{HEAD_LEN, Head, print_head};
pub use header_reading::{ReadHead, read_head};
pub use lenient::read_loose;
pub use lenient_laws::{printed_heads_are_in_range, what_is_written_reads_leniently};
pub use line::{
    ADJUST_LEN, AfdLine, CHECKSUM_LEN, CLOCKING_LEN, EMPLOYER_LEN, EVENT_LEN, HASH_LEN, WORKER_LEN,
};
pub use reading::{ReadLine, read};
pub use record::{Body, Op, recorded};
pub use trailer::{SIGNATURE_LEN, TRAILER_LEN, Trailer, print_trailer, signature};
pub use trailer_reading::read_trailer;
pub use writing::{print, stem};
