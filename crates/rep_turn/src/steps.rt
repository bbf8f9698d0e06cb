//! The steps of one seat at the table.
ghost use Rattle.std.specs.Prelude.{◌≡◌, ℕ, ◌<◌, ◌≤◌, [], ◌∷◌, length, None, true, false};
ghost use Rattle.rep_turn.specs.Log.{Adds};
ghost use Rattle.rep_turn.specs.Views.{IsFree, IsHolder, holding, taken_meaning};
ghost use Rattle.rep_turn.specs.Views.{publishing, giving, numbered, joining};
ghost use Rattle.rep_turn.specs.Plays.{Finds, Looks};
ghost use Rattle.rep_turn.specs.Tokens.{IsSized, view_of, token_of};

use crate::held::Held;
use crate::pass::Pass;
use crate::rule::{Detach, Draw, Gather, Give, Key, Look, Order, Pause, Publish, Take};
use crate::view::View;
use atomic_table::{Badge, Seat, Shared};
use std::sync::Wait;
use std::{mem, thread};

/// 1 while the state is taken. Threads park on it.
const TAKEN: usize = 0;

/// How many entries of the history are visible to all.
const COUNT: usize = 1;

/// The next participant's number.
const NEXT: usize = 2;

/// How many threads are about to park, or do. A thread that gives the state back wakes one only
/// where there is one: whoever counts itself after that look finds the state free, and doesn't park.
const WAITING: usize = 4;

/// The slot of the state.
pub(crate) const STATE: usize = 0;

/// So many tries yield before one parks.
const YIELDS: u32 = 8;

/// Takes the state, as soon as no one else has it. Until then the thread yields a few times, and
/// parks from then on.
pub(crate) fn take<B: Held, R: Wait>(
    rt: &R,
    table: &Shared<Option<B>, View<B::Entry>, Key<B>, Order<B>>,
    seat: &mut Seat<Option<B>, View<B::Entry>>,
) -> B
    requires sized { IsSized table.now.table_id }
    requires seat { (seat.old.table_id ≡ table.now.table_id) × (seat.old.me.1 ≡ []) }
    requires free { IsFree seat.old.me.0 × (0 < length seat.old.me.0.numbers) }
    ensures table { seat.new.table_id ≡ seat.old.table_id }
    ensures seat { seat.new.me ≡ (holding seat.old.me.0 (B.meaning result).seen, (0, None) ∷ []) }
    ensures finds { Finds B.meaning seat.old.me.0 result }
{
    let mut misses = 0;
    for _ in rt.forever() {
        if table.compare_exchange::<Take>(seat, TAKEN, 0, 1) == 0 {
            let state = table.exchange(seat, STATE, None);
            return state.unwrap();
        }
        if misses < YIELDS {
            misses += 1;
            thread::yield_now();
        } else {
            pause(rt, table, seat);
        }
    }
    unreachable!()
}

/// Parks until the state may be free, and says so meanwhile.
fn pause<B: Held, R: Wait>(
    rt: &R,
    table: &Shared<Option<B>, View<B::Entry>, Key<B>, Order<B>>,
    seat: &mut Seat<Option<B>, View<B::Entry>>,
)
    requires sized { IsSized table.now.table_id }
    requires seat { seat.old.table_id ≡ table.now.table_id }
    requires live { seat.old.me.0.spent ≡ false }
    ensures table { seat.new.table_id ≡ seat.old.table_id }
    ensures seat { seat.new.me ≡ seat.old.me }
{
    table.fetch_add::<Pause>(seat, WAITING, 1);
    table.park(rt, TAKEN, 1);
    table.fetch_sub::<Pause>(seat, WAITING, 1);
}

/// Makes visible to all what the state shows, gives it back, and wakes one thread that waits.
pub(crate) fn give<B: Held>(
    table: &Shared<Option<B>, View<B::Entry>, Key<B>, Order<B>>,
    seat: &mut Seat<Option<B>, View<B::Entry>>,
    state: B,
)
    requires sized { IsSized table.now.table_id }
    requires seat { (seat.old.table_id ≡ table.now.table_id) × (seat.old.me.1 ≡ (0, None) ∷ []) }
    requires holder { IsHolder seat.old.me.0 }
    requires adds { (k : ℕ) × (seat.old.me.0.numbers ≡ k ∷ [])
        × Adds k (taken_meaning seat.old.me.0) (B.meaning state) }
    ensures table { seat.new.table_id ≡ seat.old.table_id }
    ensures seat { seat.new.me
        ≡ (giving (publishing seat.old.me.0 (B.meaning state).seen), []) }
{
    let made = state.made();
    let empty = table.exchange(seat, STATE, Some(state));
    let None = empty else {
        unreachable!();
    };
    table.store::<Publish>(seat, COUNT, u64::from(made));
    table.store::<Give>(seat, TAKEN, 0);
    if table.peek(WAITING) > 0 {
        table.wake_one(TAKEN);
    }
}

/// Looks at the visible count.
pub(crate) fn look<B: Held>(
    table: &Shared<Option<B>, View<B::Entry>, Key<B>, Order<B>>,
    seat: &mut Seat<Option<B>, View<B::Entry>>,
) -> u32
    requires sized { IsSized table.now.table_id }
    requires seat { seat.old.table_id ≡ table.now.table_id }
    requires live { seat.old.me.0.spent ≡ false }
    ensures seat { seat.new.table_id ≡ seat.old.table_id }
    ensures looks { Looks seat.old.me seat.new.me result }
{
    table.load::<Look>(seat, COUNT) as u32
}

/// Draws the next number below `most`.
pub(crate) fn draw<B: Held, R: Wait>(
    rt: &R,
    table: &Shared<Option<B>, View<B::Entry>, Key<B>, Order<B>>,
    seat: &mut Seat<Option<B>, View<B::Entry>>,
    most: u32,
) -> u32
    requires sized { IsSized table.now.table_id }
    requires seat { (seat.old.table_id ≡ table.now.table_id) × (seat.old.me.1 ≡ []) }
    requires free { IsFree seat.old.me.0 }
    requires view { (seat.old.me.0.numbers ≡ []) × (seat.old.me.0.most ≡ most) }
    ensures table { seat.new.table_id ≡ seat.old.table_id }
    ensures seat { seat.new.me ≡ (numbered seat.old.me.0 result, []) }
    ensures fresh { seat.old.me.0.least_next ≤ result }
    ensures below { result < most }
{
    for _ in rt.forever() {
        let next = table.peek(NEXT);
        if next < u64::from(most)
            && table.compare_exchange::<Draw>(seat, NEXT, next, next + 1) == next
        {
            return next as u32;
        }
        thread::yield_now();
    }
    unreachable!()
}

/// Takes the number of a token, and all that its participant knew, into the seat. The token keeps
/// what its participant has seen.
pub(crate) fn gather<B: Held>(
    table: &Shared<Option<B>, View<B::Entry>, Key<B>, Order<B>>,
    seat: &mut Seat<Option<B>, View<B::Entry>>,
    pass: &mut Pass<B::Entry>,
)
    requires sized { IsSized table.now.table_id }
    requires seat { (seat.old.table_id ≡ table.now.table_id) × (seat.old.me.1 ≡ []) }
    requires gatherer { (seat.old.me.0.spent ≡ false) × (seat.old.me.0.holds ≡ false) }
    requires pass { pass.old.badge.table_id ≡ table.now.table_id }
    requires view { pass.old.badge.views ≡ view_of pass.old ∷ [] }
    requires free { IsFree (view_of pass.old) }
    ensures table { seat.new.table_id ≡ seat.old.table_id }
    ensures seat { seat.new.me ≡ (joining seat.old.me.0 (view_of pass.old), []) }
    ensures token { token_of pass.new ≡ token_of pass.old }
{
    let mut own = mem::replace(&mut pass.badge, Badge::blank()).into_seat();
    let numbered = table.split_seat::<Detach>(&mut own);
    table.join_seat::<Gather>(seat, numbered);
    pass.badge = own.into_badge();
}
