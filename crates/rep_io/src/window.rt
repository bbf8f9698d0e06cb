ghost use Rattle.std.specs.Prelude.{◌≡◌, ℕ, ◌+◌, ◌<◌, ◌≤◌, List, [], drop, length, IfOk};
ghost use Rattle.rep_io.specs.Causes.{HasCause};
ghost use Rattle.rep_io.specs.Window.{Fills};

use crate::cause::Failed;
use crate::source::Source;
use std::marker::Model;

/// How many bytes of a source are held at most before they are given.
pub const WINDOW: usize = 4096;

/// Bytes that were taken from a source and not given yet, in order.
#[derive(Drop)]
pub struct Window {
    cells: [u8; WINDOW],
    // the bytes held are those from `start` to before `end`
    start: usize,
    end: usize,
}

impl Model for Window {
    ghost use Rattle.std.specs.Prelude.{◌≡◌, ℕ, ◌-◌, ◌≤◌, List, length, take, drop};
    ghost use Rattle.rep_io.specs.Window.{IsWithin};

    ghost Value = { List ℕ };

    ghost view = { λ w. take (w.end - w.start) (drop w.start w.cells) };

    ghost invariant = { λ w. IsWithin w.cells w.start w.end };
}

impl Window {
    /// Holds nothing.
    pub fn new() -> Window
        ensures { result ≡ [] }
    {
        Window {
            cells: [0; WINDOW],
            start: 0,
            end: 0,
        }
    }

    /// The bytes held.
    pub fn bytes(&self) -> &[u8]
        ensures value { result.now ≡ self.now }
        ensures within { length result.now ≤ WINDOW }
    {
        &self.cells[self.start..self.end]
    }

    /// Lets the first bytes go.
    pub fn let_go(&mut self, count: usize)
        requires { count ≤ length self.old }
        ensures { self.new ≡ drop count self.old }
    {
        self.start += count;
    }

    /// Lets all bytes go.
    pub fn clear(&mut self)
        ensures { self.new ≡ [] }
    {
        self.start = 0;
        self.end = 0;
    }

    /// Takes at most so many bytes from the source and holds them behind the others, which are moved to the front.
    ///
    /// # Errors
    ///
    /// `Failed` only where the source answered it. Then nothing has changed.
    pub fn fill<S: Source>(&mut self, source: &mut S, most: usize) -> Result<usize, Failed>
        requires room { length self.old < WINDOW }
        requires some { 0 < most }
        ensures bytes { Fills most (S.left source.old) (S.left source.new)
            result self.old self.new }
        ensures piece { IfOk result (λ n. n ≤ WINDOW) }
        ensures cause { HasCause (S.faults source.old) (S.faults source.new) result }
    {
        let held = self.end - self.start;
        self.cells.copy_within(self.start..self.end, 0);
        self.start = 0;
        self.end = held;
        let room = most.min(WINDOW - held);
        let free = &mut self.cells[held..held + room];
        let count = source.read(free)?;
        self.end += count;
        Ok(count)
    }
}
