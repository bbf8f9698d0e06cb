//! The guard of a state, and the exclusive steps of its participants.
ghost use Rattle.std.specs.Prelude.{◌≡◌, ◌+◌, ◌≤◌, [], ◌∷◌, Some, map, IfOk, IfErr};
ghost use Rattle.std.specs.Prelude.{vec_len, vec_capacity};
ghost use Rattle.std.specs.List.{All};

use crate::held::{Held, Job};
use crate::pass::Pass;
use crate::rule::{Detach, Key, Order, Sit};
use crate::steps::{STATE, draw, gather, give, look, take};
use crate::view::View;
use atomic_table::{Badge, Refused, Seat, Table};
use std::alloc::Global;
use std::marker::Model;
use std::mem;
use std::snapshot::Snapshot;
use std::sync::Wait;

/// The guard of a state.
#[derive(Drop)]
pub struct Turn<B: Held> {
    table: Table<Option<B>, View<B::Entry>, Key<B>, Order<B>, Global>,
}

impl<B: Held> Model for Turn<B> {
    ghost use Rattle.rep_turn.specs.Tokens.{Guard, IsSized};

    ghost Value = { Guard B };

    ghost view = { λ t. record {
      table_id = t.table.shared.table_id;
      first = t.table.shared.key.0.value;
      participants = t.table.shared.key.1;
    } };

    ghost invariant = { λ t. IsSized t.table.shared.table_id };
}

/// There was no memory. The state comes back.
#[derive(Drop)]
pub struct NoTurn<B> {
    pub book: B,
}

/// A state that is guarded no longer, with the tokens of its participants.
#[derive(Drop)]
pub struct Closed<B: Held> {
    pub book: B,
    pub passes: Vec<Pass<B::Entry>>,
}

impl<B: Held> Turn<B> {
    ghost use Rattle.rep_turn.specs.Log.{Begins, AllOwnedBelow, entries};
    ghost use Rattle.rep_turn.specs.Views.{first_view};
    ghost use Rattle.rep_turn.specs.Tokens.{IsOf, Steps, IsKeptIn, AreNumberedBelow, HasSeenOnly};
    ghost use Rattle.rep_turn.specs.Tokens.{number_of, seen_by, notes_seen, front_of, token_of};

    /// Puts a state under guard for `n` participants, whose numbers are those below `n`.
    ///
    /// # Errors
    ///
    /// Where there is no memory, the state comes back.
    pub fn new<R: Wait>(
        rt: &R,
        alloc: Global,
        book: B,
        n: u32,
    ) -> Result<(Turn<B>, Vec<Pass<B::Entry>>), NoTurn<B>>
        requires some { 1 ≤ n }
        requires fresh { (B.meaning book).seen.notes ≡ [] }
        ensures guard { IfOk result (λ t. (t.0.first ≡ book) × (t.0.participants ≡ n)) }
        ensures count { IfOk result (λ t. vec_len t.1 ≡ n) }
        ensures of { IfOk result (λ t. All (IsOf B.meaning t.0) t.1.items) }
        ensures numbers { IfOk result (λ t. AreNumberedBelow n t.1.items) }
        ensures seen { IfOk result (λ t. All (HasSeenOnly (B.meaning book).seen) t.1.items) }
        ensures refused { IfErr result (λ e. e.book ≡ book) }
    {
        let Ok(mut passes) = Vec::with_capacity(alloc, n as usize) else {
            return Err(NoTurn { book });
        };
        let (turn, seat) = Turn::open(alloc, book, n)?;
        turn.seat_all(rt, seat, n, &mut passes);
        Ok((turn, passes))
    }

    /// Makes the table, with the first participant's seat.
    fn open(
        alloc: Global,
        book: B,
        n: u32,
    ) -> Result<(Turn<B>, Seat<Option<B>, View<B::Entry>>), NoTurn<B>>
        requires some { 1 ≤ n }
        requires fresh { (B.meaning book).seen.notes ≡ [] }
        ensures guard { IfOk result (λ t. (t.0.first ≡ book) × (t.0.participants ≡ n)) }
        ensures table { IfOk result (λ t. t.1.table_id ≡ t.0.table_id) }
        ensures view { IfOk result (λ t. t.1.me ≡ (first_view (B.meaning book) n, [])) }
        ensures refused { IfErr result (λ e. e.book ≡ book) }
    {
        let key = (Snapshot::of(&book), n);
        let words = [0, u64::from(book.made()), 1, u64::from(n), 0];
        let Ok(mut slots) = Vec::with_capacity(alloc, 1) else {
            return Err(NoTurn { book });
        };
        slots.push_reserved(Some(book));
        match Table::new(alloc, &words, slots, &key) {
            Ok((table, seat)) => Ok((Turn { table }, seat)),
            Err(refused) => Err(NoTurn {
                book: only(refused.slots),
            }),
        }
    }

    /// Gives each participant its number and its token. The first seat has the number 0.
    fn seat_all<R: Wait>(
        &self,
        rt: &R,
        mut seat: Seat<Option<B>, View<B::Entry>>,
        n: u32,
        passes: &mut Vec<Pass<B::Entry>>,
    )
        requires some { (1 ≤ n) × (self.now.participants ≡ n) }
        requires table { seat.table_id ≡ self.now.table_id }
        requires view { seat.me ≡ (first_view (B.meaning self.now.first) n, []) }
        requires room { (passes.old.items ≡ []) × (n ≤ vec_capacity passes.old) }
        ensures count { vec_len passes.new ≡ n }
        ensures of { All (IsOf B.meaning self.now) passes.new.items }
        ensures numbers { AreNumberedBelow n passes.new.items }
        ensures seen { All (HasSeenOnly (B.meaning self.now.first).seen) passes.new.items }
    {
        let table = &self.table.shared;
        let mut number = 0;
        for _ in 1..n {
            let own = table.split_seat::<Detach>(&mut seat);
            passes.push_reserved(Pass {
                number,
                badge: own.into_badge(),
            });
            number = draw(rt, table, &mut seat, n);
        }
        passes.push_reserved(Pass {
            number,
            badge: seat.into_badge(),
        });
    }

    /// One exclusive step of the participant: takes the state, does the work, makes visible to all
    /// what the state shows, and gives it back.
    pub fn with<R: Wait, J: Job<B>>(
        &self,
        rt: &R,
        pass: &mut Pass<B::Entry>,
        job: &mut J,
    ) -> J::Answer
        requires { IsOf B.meaning self.now pass.old }
        ensures of { IsOf B.meaning self.now pass.new }
        ensures number { number_of pass.new ≡ number_of pass.old }
        ensures front { front_of pass.new ≡ front_of pass.old }
        ensures grows { Begins (seen_by pass.old) (seen_by pass.new) }
        ensures step { Steps B.meaning self.now
            (λ before number after. J.done job.old before number result job.new after)
            pass.old pass.new }
    {
        let number = pass.number;
        let mut seat = mem::replace(&mut pass.badge, Badge::blank()).into_seat();
        let mut book = take(rt, &self.table.shared, &mut seat);
        let answer = job.work(&mut book, number);
        give(&self.table.shared, &mut seat, book);
        pass.badge = seat.into_badge();
        answer
    }

    /// Looks at the visible count: how many entries the history had when the state was last made
    /// visible. It waits for nobody.
    pub fn front(&self, pass: &mut Pass<B::Entry>) -> u32
        requires { IsOf B.meaning self.now pass.old }
        ensures of { IsOf B.meaning self.now pass.new }
        ensures number { number_of pass.new ≡ number_of pass.old }
        ensures seen { seen_by pass.new ≡ seen_by pass.old }
        ensures front { front_of pass.new ≡ result }
        ensures covers_seen { (B.meaning self.now.first).base + entries (notes_seen pass.old)
            ≤ result }
        ensures covers_fronts { front_of pass.old ≤ result }
    {
        let mut seat = mem::replace(&mut pass.badge, Badge::blank()).into_seat();
        let count = look(&self.table.shared, &mut seat);
        pass.badge = seat.into_badge();
        count
    }

    /// Ends the guard. The tokens keep what their participants have seen, and each note in the state's log is of one
    /// of these participants.
    pub fn close(self, mut passes: Vec<Pass<B::Entry>>) -> Closed<B>
        requires count { vec_len passes ≡ self.participants }
        requires of { All (IsOf B.meaning self) passes.items }
        ensures base { (B.meaning result.book).base ≡ (B.meaning self.first).base }
        ensures start { (B.meaning result.book).start ≡ (B.meaning self.first).start }
        ensures passes { map token_of result.passes.items ≡ map token_of passes.items }
        ensures owners { AllOwnedBelow self.participants (B.meaning result.book).seen.notes }
        ensures kept { All (IsKeptIn B.meaning result.book) (map token_of passes.items) }
    {
        let mut seat = self.table.shared.load_new_seat::<Sit>(0).1;
        for pass in passes.iter_mut() {
            gather(&self.table.shared, &mut seat, pass);
        }
        let Turn { table } = self;
        let mut closed = table.close_with(seat);
        let state = closed.take(STATE);
        closed.free();
        Closed {
            book: state.unwrap(),
            passes,
        }
    }
}

/// The state in the one slot of a table that was never made.
fn only<B>(mut slots: Vec<Option<B>>) -> B
    requires { (state : B) × (slots.items ≡ Some state ∷ []) }
    ensures { slots.items ≡ Some result ∷ [] }
{
    let last = slots.pop();
    let Some(Some(state)) = last else {
        unreachable!();
    };
    slots.destroy_empty();
    state
}
