ghost use Rattle.std.specs.Prelude.{◌≡◌, ◌+◌, ◌≤◌, [], ◌∷◌, ◌++◌, length};
ghost use Rattle.rep_journal.specs.Format.{IsFrame, eight_bytes, frame_text, two_bytes};

use crate::format::{CLOSED_GATE, LONGEST_STAGE};
use crate::frame::Frame;
use std::marker::Model;

/// A frame and the gate behind it, as they are written in one call. It takes no memory.
#[derive(Drop)]
pub(crate) struct Stage {
    cells: [u8; LONGEST_STAGE],
    size: usize,
}

impl Model for Stage {
    ghost use Rattle.std.specs.Prelude.{◌≡◌, ◌≤◌, ℕ, List, length, take};

    ghost Value = { List ℕ };

    ghost view = { λ s. take s.size s.cells };

    ghost invariant = { λ s. (length s.cells ≡ 344) × (s.size ≤ 344) };
}

impl Stage {
    fn new() -> Stage
        ensures value { result ≡ [] }
        ensures size { length result ≡ 0 }
    {
        Stage {
            cells: [0; LONGEST_STAGE],
            size: 0,
        }
    }

    fn push(&mut self, bytes: &[u8])
        requires { length self.old + length bytes.now ≤ 344 }
        ensures value { self.new ≡ self.old ++ bytes.now }
        ensures size { length self.new ≡ length self.old + length bytes.now }
    {
        let end = self.size + bytes.len();
        let cells = &mut self.cells[..];
        cells[self.size..end].copy_from_slice(bytes);
        self.size = end;
    }

    #[tactic(auto, unfolding(crate::specs::Format::two_bytes))]
    fn push_u16(&mut self, number: u16)
        requires { length self.old + 2 ≤ 344 }
        ensures value { self.new ≡ self.old ++ two_bytes number }
        ensures size { length self.new ≡ length self.old + 2 }
    {
        self.push(&number.to_be_bytes());
    }

    #[tactic(auto, unfolding(crate::specs::Format::eight_bytes))]
    fn push_u64(&mut self, number: u64)
        requires { length self.old + 8 ≤ 344 }
        ensures value { self.new ≡ self.old ++ eight_bytes number }
        ensures size { length self.new ≡ length self.old + 8 }
    {
        self.push(&number.to_be_bytes());
    }

    /// The frame's bytes and a closed gate.
    #[tactic(auto, unfolding(crate::specs::Format::frame_text))]
    pub fn of(frame: &Frame) -> Stage
        ensures text { result ≡ frame_text frame.now ++ 0 ∷ [] }
        ensures size { length result ≡ 13 + length frame.now.line }
        ensures within { length result ≤ 344 }
        ensures well_formed { IsFrame frame.now }
    {
        let line = frame.line();
        let mut stage = Stage::new();
        stage.push_u16(line.len() as u16);
        stage.push_u16(frame.origin());
        stage.push_u64(frame.seq());
        stage.push(line);
        stage.push(&[CLOSED_GATE]);
        stage
    }

    /// The bytes.
    pub fn bytes(&self) -> &[u8]
        ensures { result.now ≡ self.now }
    {
        &self.cells[..self.size]
    }
}
