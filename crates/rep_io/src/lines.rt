ghost use Rattle.std.specs.Prelude.{◌≡◌, ◌⊎◌, ℕ, ◌+◌, ◌<◌, ◌≤◌, List, true, false, length, OnErr, OnOk, MatchOption};
ghost use Rattle.rep_io.specs.Causes.{HasCause, Rose};
ghost use Rattle.rep_io.specs.Lines.{longest_text};
ghost use Rattle.rep_io.specs.Cutter.{IsCutter, fresh, HasNoLineFeed, IsUnread, Draws, IsOver, IsAtLimit, TakesNothing};
ghost use Rattle.rep_io.specs.Next.{Advances, AsksWhereDue, Gives, IsOfLine, TakesLine};
ghost use Rattle.rep_io.specs.Steps.{in_room, AsksOnce, EndsAt, GetsNothing, NeedsMore, StepsTo, work_of, GivesNow, PassesOver};

use crate::cause::Failed;
use crate::ending::{ended_line, last_line, line_end};
use crate::next::Next;
use crate::piece::LONGEST_LINE;
use crate::source::Source;
use crate::window::Window;
use std::marker::Model;

/// The most bytes that a text may have.
pub const LONGEST_TEXT: usize = 268_435_456;

/// Cuts the bytes of a source into lines, a few KiB at a time. It takes no memory.
#[derive(Drop)]
pub struct Lines<S: Source> {
    source: S,
    window: Window,
    taken: usize,
    passed: usize,
    ended: bool,
}

impl<S: Source> Model for Lines<S> {
    ghost use Rattle.rep_io.specs.Cutter.{Cutter, IsCutter};

    ghost Value = { Cutter S };

    ghost view = { λ l. record {
      source = l.source;
      taken = l.taken;
      passed = l.passed;
      held = l.window;
      ended = l.ended;
    } };

    ghost invariant = { λ l. IsCutter S.left (record {
      source = l.source;
      taken = l.taken;
      passed = l.passed;
      held = l.window;
      ended = l.ended;
    }) };
}

impl<S: Source> Lines<S> {
    /// Nothing of the source is taken yet.
    pub fn new(source: S) -> Lines<S>
        ensures { result ≡ fresh source }
    {
        Lines {
            source,
            window: Window::new(),
            taken: 0,
            passed: 0,
            ended: false,
        }
    }

    /// The source as it stands.
    pub fn into_source(self) -> S
        ensures { result ≡ self.source }
    {
        let Lines {
            source,
            window: _,
            taken: _,
            passed: _,
            ended: _,
        } = self;
        source
    }

    /// What comes next. It asks the source only where nothing can be told of what was taken, and takes `LONGEST_TEXT` + 1
    /// bytes at most.
    ///
    /// `Next::SourceFault` is the answer only where the source failed in this call, and no failure is passed over. The
    /// bytes of the line under way are kept then, and a later call goes on from them.
    pub fn next(&mut self) -> Next
        ensures unread { (text : List ℕ) → IsUnread S.left self.old text
            → Gives S.left self.old self.new result text }
        ensures advances { Advances self.old self.new result }
        ensures draws { Draws S.left self.old self.new }
        ensures asks { AsksWhereDue S.left self.old self.new result }
        ensures within { self.new.taken ≤ longest_text + 1 }
        ensures cutter { IsCutter S.left self.new }
        ensures over { result ≡ Next.End → IsOver self.new }
        ensures stays_over { IsOver self.old → (result ≡ Next.End) × IsOver self.new }
        ensures limit { result ≡ Next.InputLimit → IsAtLimit self.new }
        ensures stays_at_limit { IsAtLimit self.old
            → (result ≡ Next.InputLimit) × IsAtLimit self.new }
        ensures later { S.faults self.old.source ≤ S.faults self.new.source }
        ensures source_fault { result ≡ Next.SourceFault
            → Rose (S.faults self.old.source) (S.faults self.new.source) }
        ensures no_fault { (result ≡ Next.SourceFault → ⊥)
            → S.faults self.new.source ≡ S.faults self.old.source }
    {
        loop {
            if let Some(next) = self.give() {
                return next;
            }
            let Ok(()) = self.draw() else {
                return Next::SourceFault;
            };
        }
    }

    // What can be told without another read.
    fn give(&mut self) -> Option<Next>
        ensures cases { MatchOption result (NeedsMore self.old × (self.new ≡ self.old))
            (GivesNow S.left self.old self.new) }
        ensures cutter { IsCutter S.left self.new }
    {
        match line_end(self.in_room()) {
            Some(at) => Some(self.give_ended(at)),
            None if self.ended => Some(self.give_last()),
            None if self.taken > LONGEST_TEXT => Some(Next::InputLimit),
            None => None,
        }
    }

    // The bytes held, without the one that is past the most that a text may have.
    fn in_room(&self) -> &[u8]
        ensures { result.now ≡ in_room self.now }
    {
        let held = self.window.bytes();
        let past = self.taken.saturating_sub(LONGEST_TEXT);
        &held[..held.len().saturating_sub(past)]
    }

    // Gives the line that ends at this place of what is held.
    fn give_ended(&mut self, at: usize) -> Next
        requires { EndsAt (in_room self.old) at }
        ensures takes { (text : List ℕ) → IsUnread S.left self.old text
            → TakesLine S.left self.old self.new result text }
        ensures of_line { IsOfLine result }
        ensures advances { Advances self.old self.new result }
        ensures nothing { TakesNothing self.old self.new }
        ensures cutter { IsCutter S.left self.new }
    {
        let next = if self.passed > 0 {
            Next::TooLong
        } else {
            ended_line(&self.window.bytes()[..at])
        };
        self.window.let_go(at + 1);
        self.passed = 0;
        next
    }

    // Gives what is left when the source has ended.
    fn give_last(&mut self) -> Next
        requires ended { self.old.ended ≡ true }
        requires no_end { HasNoLineFeed self.old.held }
        ensures gives { (text : List ℕ) → IsUnread S.left self.old text
            → Gives S.left self.old self.new result text }
        ensures kind { (result ≡ Next.End) ⊎ IsOfLine result }
        ensures advances { Advances self.old self.new result }
        ensures nothing { TakesNothing self.old self.new }
        ensures cutter { IsCutter S.left self.new }
        ensures over { result ≡ Next.End → IsOver self.new }
        ensures stays_over { IsOver self.old → (result ≡ Next.End) × IsOver self.new }
    {
        let next = if self.passed > 0 {
            Next::TooLong
        } else if self.window.bytes().is_empty() {
            Next::End
        } else {
            last_line(self.window.bytes())
        };
        self.window.clear();
        self.passed = 0;
        next
    }

    // Takes more of the source: of a line that is too long nothing is kept.
    fn draw(&mut self) -> Result<(), Failed>
        requires { NeedsMore self.old }
        ensures steps { StepsTo S.left S.faults self.old self.new }
        ensures asks { AsksOnce S.left self.old self.new }
        ensures nothing { OnErr result (GetsNothing self.old self.new) }
        ensures cause { HasCause (S.faults self.old.source) (S.faults self.new.source) result }
        ensures less { OnOk result (work_of self.new < work_of self.old) }
        ensures cutter { IsCutter S.left self.new }
    {
        self.pass_over();
        let most = LONGEST_TEXT + 1 - self.taken;
        let count = self.window.fill(&mut self.source, most)?;
        self.taken += count;
        self.ended = count == 0;
        Ok(())
    }

    // Lets go of what is held where its line is too long to be kept.
    fn pass_over(&mut self)
        requires no_end { HasNoLineFeed self.old.held }
        requires room { self.old.taken ≤ longest_text }
        ensures { PassesOver S.left self.old self.new }
    {
        let held = self.window.bytes().len();
        if self.passed > 0 || held > LONGEST_LINE + 1 {
            self.passed += held;
            self.window.clear();
        }
    }
}
