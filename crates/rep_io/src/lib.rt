//! The outside, as the rest of the repository sees it: sources, sinks, clocks and gates by what was asked of
//! them, each with a count of its faults; their forms in memory; and the lines of a text.
#![tactic(auto)]

mod calls;
mod cause;
mod clock;
mod ending;
mod gate;
mod lines;
mod mem_clock;
mod mem_sink;
mod mem_source;
mod next;
mod piece;
mod sink;
mod source;
mod transfer;
mod window;

pub use cause::{Failed, OutOfMemory};
pub use clock::{Clock, FIRST_READING, LAST_READING};
pub use gate::{Gate, OpenGate};
pub use lines::{LONGEST_TEXT, Lines};
pub use mem_clock::MemClock;
pub use mem_sink::MemSink;
pub use mem_source::MemSource;
pub use next::Next;
pub use piece::{LONGEST_LINE, Piece};
pub use sink::{Sink, SinkFault};
pub use source::Source;
pub use transfer::{ReadFault, put_all, read_whole};
