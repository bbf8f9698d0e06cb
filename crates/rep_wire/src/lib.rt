//! The lines of lane files: the requests that collectors and operators send, and the replies to them.
//!
//! `read_lane_head` and `read_line` read exactly the grammar of a lane file, `made` and `same` tie a request to the
//! record of it, and `reply_line` and `extract_line` write the replies. None of these calls takes memory.
#![tactic(auto)]

mod answering;
mod asking;
mod cut;
mod head;
mod letter;
mod making;
mod reading;
mod reply;
mod request;
mod value;

pub use answering::{extract_line, reply_line};
pub use head::{LaneHead, read_lane_head};
pub use making::{made, same};
pub use reading::{Malformed, read_line};
pub use reply::{Answer, Code, Reply, Slip};
pub use request::{Ask, Entry, Order, Request};
