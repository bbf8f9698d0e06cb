//! What a command says on its output when it ends: the line of its counts, and the line of a fault. The texts are this
//! project's own. LF ends each line, and a fault of the output while they are said is told as the order of statuses has it.
#![tactic(auto)]

mod ending;
mod lines;
mod saying;

pub use ending::Ending;
pub use lines::{
    LONGEST_KEY, OutputLine, blank_line, created_line, damaged_line, fault_line, foreign_line,
    lane_fault_line, present_line, run_line, site_key_line, site_text_line,
};
pub use saying::{conclude, say};
