//! The guarded state, and what may be done to it.
ghost use Rattle.std.specs.Prelude.{◌≡◌, ℕ};
ghost use Rattle.rep_turn.specs.Log.{Meaning, PastAgrees, Adds, made_of};

/// A state that participants share, and that one of them at a time may change. It has a log.
pub trait Held {
    /// An entry of the history.
    type Entry;

    /// How many entries came before its notes, its counts at the start, and what can be seen of it.
    ghost meaning: { Self → Meaning Self.Entry };

    /// The collector and the sequence number of an entry.
    ghost named: { Self.Entry → ℕ × ℕ };

    /// How many entries the history has.
    fn made(&self) -> u32
        ensures counted { result ≡ made_of (meaning self.now) }
        ensures agrees { PastAgrees named (meaning self.now) };
}

/// The work of one exclusive step.
pub trait Job<B: Held> {
    type Answer;

    /// What the work relates: the job and the state before, the number of the participant, the
    /// answer, and the job and the state after.
    ghost done: { Self → B → ℕ → Self.Answer → Self → B → Type 0 };

    /// Works on the state for the participant `owner`, whose number each new note carries.
    fn work(&mut self, book: &mut B, owner: u32) -> Self::Answer
        ensures done { done self.old book.old owner result self.new book.new }
        ensures adds { Adds owner (B.meaning book.old) (B.meaning book.new) };
}
