ghost use Rattle.std.specs.Prelude.{◌≡◌, ◌+◌, ◌<◌, ◌≤◌, [], ◌∷◌, ◌++◌, length, slice_get, Some, OnOk};
ghost use Rattle.rep_journal.specs.Format.{AreFrames, end_of, gate_at, open_gate};
ghost use Rattle.rep_journal.specs.Listed.{Listed, end_of_journals, most_frames};

use crate::format::{FIRST_GATE, HEAD_SIZE, MOST_FRAMES};
use crate::frame::Frame;
use rep_io::OutOfMemory;
use std::alloc::Global;
use std::marker::Model;

/// The frames of a journal and the places of their gates.
#[derive(Drop)]
pub(crate) struct FrameList {
    frames: Vec<Frame>,
    // the place of the gate in front of each frame
    gates: Vec<u64>,
    // the place of the gate behind the frames
    end: u64,
}

impl Model for FrameList {
    ghost use Rattle.std.specs.Prelude.{◌-◌, min, vec_capacity, vec_len};
    ghost use Rattle.rep_journal.specs.Listed.{Listed, IsListed, most_frames};

    ghost Value = { Listed };

    // room in both lists, as far as a journal goes
    ghost view = { λ l. record {
      frames = l.frames.items;
      room = min (vec_capacity l.frames - vec_len l.frames) (min (vec_capacity l.gates - vec_len l.gates) (most_frames - vec_len l.frames));
    } };

    ghost invariant = { λ l. IsListed l.frames.items l.gates.items l.end };
}

impl FrameList {
    /// No frames. It takes no memory yet.
    pub fn new(alloc: Global) -> FrameList
        ensures { result.frames ≡ [] }
    {
        FrameList {
            frames: Vec::new(alloc),
            gates: Vec::new(alloc),
            end: FIRST_GATE,
        }
    }

    /// How many frames there are.
    pub fn count(&self) -> u32
        ensures count { result ≡ length self.now.frames }
        ensures room { length self.now.frames + self.now.room ≤ most_frames }
    {
        self.frames.len() as u32
    }

    /// The place of the gate behind the frames.
    pub fn end(&self) -> u64
        ensures end { result ≡ end_of self.now.frames }
        ensures within { result ≤ end_of_journals }
        ensures limit { length self.now.frames ≤ most_frames }
        ensures well_formed { AreFrames self.now.frames }
    {
        self.end
    }

    /// The place of the gate in front of a frame.
    pub fn gate_of(&self, i: u32) -> u64
        requires { i < length self.now.frames }
        ensures { result ≡ gate_at self.now.frames i }
    {
        self.gates[i as usize]
    }

    /// A frame.
    pub fn frame(&self, i: u32) -> Frame
        requires { i < length self.now.frames }
        ensures { slice_get self.now.frames i ≡ Some result }
    {
        self.frames[i as usize].copy()
    }

    /// Makes room for one frame more.
    ///
    /// # Errors
    ///
    /// `OutOfMemory`, also where there are as many frames as a journal can have.
    pub fn reserve(&mut self) -> Result<(), OutOfMemory>
        ensures made { OnOk result (1 ≤ self.new.room) }
        ensures frames { self.new.frames ≡ self.old.frames }
        ensures room { self.old.room ≤ self.new.room }
    {
        if self.frames.len() >= MOST_FRAMES as usize {
            return Err(OutOfMemory);
        }
        self.frames.reserve(1)?;
        self.gates.reserve(1)?;
        Ok(())
    }

    /// Appends a frame, for which there is room.
    pub fn push(&mut self, frame: Frame)
        requires { 1 ≤ self.old.room }
        ensures frames { self.new.frames ≡ self.old.frames ++ frame ∷ [] }
        ensures room { self.old.room ≤ self.new.room + 1 }
    {
        let size = HEAD_SIZE + frame.line().len();
        self.frames.push_reserved(frame);
        self.gates.push_reserved(self.end);
        self.end += 1 + size as u64;
    }
}
