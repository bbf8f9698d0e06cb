//! What a participant knows. It stands in clauses alone, and no value of these types is made.
use crate::note::Seen;
use std::collections::LinkedList;

/// What a participant whose view was joined into another knew: its number, what it had seen, and
/// the greatest visible count that it had looked at.
pub struct Token<E> {
    pub number: u32,
    pub seen: Seen<E>,
    pub front: u32,
}

/// The view of one seat at the table.
pub struct View<E> {
    pub seen: Seen<E>,
    /// What the state had when it was put under guard: how many entries came before its notes, and
    /// the counts at the start.
    pub base: u32,
    pub start: LinkedList<u64>,
    /// How many participants there are.
    pub most: u32,
    /// Its numbers: none for a new seat, its own, or those of the views that were joined into it.
    pub numbers: LinkedList<u32>,
    /// Each number that is drawn from now on is at least this.
    pub least_next: u32,
    /// Whether it holds the guarded state.
    pub holds: bool,
    /// While it holds the state: what the state showed when it was last visible to all.
    pub taken: Seen<E>,
    /// The greatest visible count that it has looked at.
    pub front: u32,
    /// What was joined into it.
    pub gathered: LinkedList<Token<E>>,
    /// Its content was joined into another view.
    pub spent: bool,
}
