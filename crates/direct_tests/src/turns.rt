//! Participants at work at once.
ghost use Rattle.std.specs.Prelude.{◌≡◌, ◌≤◌, [], None};
ghost use Rattle.std.specs.List.{All};
ghost use Rattle.rep_turn.specs.Log.{Adds, entries};
ghost use Rattle.rep_turn.specs.Tokens.{IsOf};

use rep_turn::{Held, Job, Note, Pass, Turn, What};
use std::alloc::{AllocError, Global};
use std::sync::Wait;
use std::sync::atomic::AtomicU64;
use std::sync::atomic::Ordering::SeqCst;
use std::test::Fail;
use std::thread;
use std::thread::Threads;

/// A list of notes, all of which are entries.
#[derive(Drop)]
struct Ledger {
    made: u32,
    notes: Vec<Note>,
    ghost counted: { made ≡ entries notes.items },
}

impl Held for Ledger {
    type Entry = ();

    ghost meaning = { λ b. record {
      base = 0;
      start = [];
      seen = record { notes = b.notes.items; past = None };
    } };

    ghost named = { λ _. (0, 0) };

    fn made(&self) -> u32 {
        self.made
    }
}

/// Appends one entry, and says whether it did.
#[derive(Drop)]
struct Append {
    seq: u64,
}

impl Job<Ledger> for Append {
    type Answer = bool;

    ghost done = { λ before old owner answer after new. Unit {0} };

    fn work(&mut self, book: &mut Ledger, owner: u32) -> bool {
        add_entry(book, owner, self.seq)
    }
}

fn add_entry(book: &mut Ledger, owner: u32, seq: u64) -> bool
    ensures { Adds owner (⟦<Ledger as Held>⟧.meaning book.old)
        (⟦<Ledger as Held>⟧.meaning book.new) }
{
    let what = What::Entry {
        origin: 1,
        seq,
        shares: false,
    };
    if book.made == u32::MAX || book.notes.reserve(1).is_err() {
        return false;
    }
    book.notes.push_reserved(Note { owner, what });
    book.made += 1;
    true
}

impl From<u64> for Append {
    fn from(seq: u64) -> Append {
        Append { seq }
    }
}

/// The participant takes `turns` exclusive steps, numbered from 0.
fn step_on<B: Held, J: Job<B, Answer = bool> + From<u64> + Drop + Send, R: Wait>(
    rt: &R,
    turn: &Turn<B>,
    pass: &mut Pass<B::Entry>,
    turns: u64,
)
    requires { IsOf B.meaning turn.now pass.old }
    ensures { IsOf B.meaning turn.now pass.new }
{
    for seq in 0..turns {
        let mut job = J::from(seq);
        turn.with(rt, pass, &mut job);
    }
}

/// Each participant does so, in a thread of its own.
fn step_at_once<
    B: Held + Send,
    J: Job<B, Answer = bool> + From<u64> + Drop + Send,
    R: Threads + Wait + Sync,
>(rt: &R, turn: &Turn<B>, passes: &mut [Pass<B::Entry>], turns: u64)
    requires { All (IsOf B.meaning turn.now) passes.old }
    ensures { All (IsOf B.meaning turn.now) passes.new }
{
    thread::for_each_mut(
        rt,
        passes,
        64,
        &|_, pass: &mut Pass<B::Entry>|
            requires { IsOf B.meaning turn.now pass.old }
            ensures { IsOf B.meaning turn.entry.now pass.exit.now }
        { step_on::<B, J, R>(rt, turn, pass, turns) },
    );
}

/// Whether the notes are `each` entries of each of so many owners, in each owner's order.
fn are_in_order(
    alloc: Global,
    notes: &[Note],
    owners: usize,
    each: u64,
) -> Result<bool, AllocError> {
    let mut next = Vec::from_elem(alloc, 0u64, owners)?;
    for note in notes {
        let What::Entry { seq, .. } = note.what else {
            return Ok(false);
        };
        let Some(wanted) = next.get_mut(note.owner as usize) else {
            return Ok(false);
        };
        if seq != *wanted {
            return Ok(false);
        }
        *wanted = wanted.wrapping_add(1);
    }
    Ok(next.iter().all(|n| *n == each))
}

/// So many participants append so many entries each, at once. Answers whether the log is theirs.
fn is_whole<R: Threads + Wait + Sync>(
    rt: &R,
    alloc: Global,
    participants: u32,
    turns: u64,
) -> Result<bool, AllocError>
    requires { 1 ≤ participants }
{
    let book = Ledger {
        made: 0,
        notes: Vec::new(alloc),
    };
    let Ok((turn, mut passes)) = Turn::new(rt, alloc, book, participants) else {
        return Err(AllocError);
    };
    step_at_once::<Ledger, Append, R>(rt, &turn, passes.as_mut_slice(), turns);
    let closed = turn.close(passes);
    are_in_order(
        alloc,
        closed.book.notes.as_slice(),
        closed.passes.len(),
        turns,
    )
}

#[test]
fn two_threads_append_a_hundred_notes_each_in_order(rt: HostRuntime) -> Result<(), Fail> {
    assert!(rt; is_whole(&rt, rt.alloc(), 2, 100)?);
    Ok(())
}

#[test]
fn sixty_four_threads_take_a_thousand_turns_each(rt: HostRuntime) -> Result<(), Fail> {
    assert!(rt; is_whole(&rt, rt.alloc(), 64, 1000)?);
    Ok(())
}

/// Says that it works, waits until another thread has looked at the visible count, and then appends
/// an entry.
#[derive(Drop)]
struct LookedAt<'a, R: Wait> {
    rt: &'a R,
    works: &'a AtomicU64,
    looked: &'a AtomicU64,
}

impl<'a, R: Wait> Job<Ledger> for LookedAt<'a, R> {
    type Answer = bool;

    ghost done = { λ before old owner answer after new. Unit {0} };

    fn work(&mut self, book: &mut Ledger, owner: u32) -> bool {
        self.works.store(1, SeqCst);
        wait_for(self.rt, self.looked);
        add_entry(book, owner, 0)
    }
}

fn wait_for<R: Wait>(rt: &R, flag: &AtomicU64) {
    for _ in rt.forever() {
        if flag.load(SeqCst) == 1 {
            return;
        }
        thread::yield_now();
    }
}

/// Takes one exclusive step.
fn step_once<B: Held, J: Job<B, Answer = bool> + Drop, R: Wait>(
    rt: &R,
    turn: &Turn<B>,
    mut pass: Pass<B::Entry>,
    mut job: J,
) -> Pass<B::Entry>
    requires { IsOf B.meaning turn.now pass }
    ensures { IsOf B.meaning turn.now result }
{
    turn.with(rt, &mut pass, &mut job);
    pass
}

/// Looks at the visible count while another participant works.
fn look_meanwhile<B: Held, R: Wait>(
    rt: &R,
    turn: &Turn<B>,
    mut pass: Pass<B::Entry>,
    works: &AtomicU64,
    looked: &AtomicU64,
) -> (Pass<B::Entry>, u32)
    requires { IsOf B.meaning turn.now pass }
    ensures { IsOf B.meaning turn.now result.0 }
{
    wait_for(rt, works);
    let count = turn.front(&mut pass);
    looked.store(1, SeqCst);
    (pass, count)
}

/// What the second participant sees while the first one works, and afterwards.
fn fronts<B: Held + Send, J: Job<B, Answer = bool> + Drop + Send, R: Threads + Wait + Sync>(
    rt: &R,
    turn: &Turn<B>,
    first: Pass<B::Entry>,
    second: Pass<B::Entry>,
    job: J,
    works: &AtomicU64,
    looked: &AtomicU64,
) -> (u32, u32)
    requires first { IsOf B.meaning turn.now first }
    requires second { IsOf B.meaning turn.now second }
{
    let (_, (mut second, meanwhile)) = thread::join(
        rt,
        move ||
            requires { IsOf B.meaning turn.now first }
        { step_once(rt, turn, first, job) },
        move || -> (Pass<B::Entry>, u32)
            requires { IsOf B.meaning turn.now second }
            ensures { IsOf B.meaning turn.entry.now result.0 }
        { look_meanwhile(rt, turn, second, works, looked) },
    );
    (meanwhile, turn.front(&mut second))
}

#[test]
fn the_count_is_looked_at_while_another_participant_works(rt: HostRuntime) -> Result<(), Fail> {
    let book = Ledger {
        made: 0,
        notes: Vec::new(rt.alloc()),
    };
    let Ok((turn, mut passes)) = Turn::new(&rt, rt.alloc(), book, 2) else {
        return Err(AllocError.into());
    };
    let works = AtomicU64::new(0);
    let looked = AtomicU64::new(0);
    let job = LookedAt {
        rt: &rt,
        works: &works,
        looked: &looked,
    };
    let first = passes.pop().unwrap();
    let second = passes.pop().unwrap();
    let seen = fronts(&rt, &turn, first, second, job, &works, &looked);
    assert_eq!(rt; seen, (0, 1));
    Ok(())
}
