ghost use Rattle.std.specs.Prelude.{◌≡◌, ◌≢◌, ℕ, ◌+◌, ◌-◌, ◌<◌, ◌≤◌, ◌⊎◌, ◌↔◌, List, [], ◌∷◌, ◌++◌, length, slice_get, IsTrue, IfSome, OnOk, OnErr, Some, option_copied};
ghost use Rattle.afd_records.specs.Record.{last_nsr, IsNsr, HasText};
ghost use Rattle.afd_records.specs.Line.{IsHashText, HasHash};
ghost use Rattle.rep_wire.specs.Reply.{hash_text};
ghost use Rattle.rep_wire.specs.Request.{IsRequest, IsFounding};
ghost use Rattle.rep_wire.specs.declared.request.Entry.{Entry};
ghost use Rattle.rep_core.specs.Answered.{entry_of, marked_in};
ghost use Rattle.rep_core.specs.Chained.{next_line};
ghost use Rattle.rep_core.specs.Hashes.{hash_behind, linked};

use crate::index::Index;
use crate::registration::{is_known, may_be};
use crate::search::worker_in;
use crate::verdict::{Verdict, WorkerState};
use afd_chain::link;
use afd_records::{AfdLine, Body, print, recorded, stem};
use rep_fields::{Cpf, EmployerId, Stamp};
use rep_io::OutOfMemory;
use rep_wire::{Answer, Ask, Code, Entry, Reply, Request, Slip, made, same};
use std::alloc::Global;
use std::marker::Model;

/// The recorder's core: the history so far, and the limit of its numbers. It keeps the list of entries, and beside it the
/// numbers that look-ups ask for.
#[derive(Drop)]
pub struct Core {
    entries: Vec<Entry>,
    index: Index,
    // the hash of each entry that is a clocking
    hashes: Vec<Option<[u8; 64]>>,
    // the hash of the last clocking
    tip: Option<[u8; 64]>,
    limit: u32,
}

impl Model for Core {
    ghost use Rattle.std.specs.Prelude.{◌-◌, min, vec_len, vec_capacity};
    ghost use Rattle.rep_core.specs.Core.{Kept, IsLimit};
    ghost use Rattle.rep_core.specs.Hashes.{IsInStep};
    ghost use Rattle.rep_core.specs.Index.{IsIndexOf, rooms_of};

    ghost Value = { Kept };

    ghost view = { λ c. record {
      entries = c.entries.items;
      limit = c.limit;
      room = min (vec_capacity c.entries - vec_len c.entries) (min (vec_capacity c.hashes - vec_len c.hashes) c.index.workers.room);
      rooms = rooms_of c.index.origins;
    } };

    ghost invariant = { λ c. IsLimit c.limit × IsInStep c.entries.items c.hashes.items c.tip × IsIndexOf c.index c.entries.items };
}

#[tactic(auto, unfolding(crate::specs::Core::Stands, crate::specs::Core::IsReady))]
impl Core {
    ghost use Rattle.rep_core.specs.Core.{Kept, Stands, IsLimit, IsReady, room_of};
    ghost use Rattle.rep_core.specs.History.{IsNumbered, IsNew, last_worker};
    ghost use Rattle.rep_core.specs.Lookup.{FindsPair, KeepsPair, KeepsWhere, FindsEmployer};
    ghost use Rattle.rep_wire.specs.Made.{made_of};
    ghost use Rattle.rep_core.specs.Chained.{last_hash, history_lines};
    ghost use Rattle.rep_core.specs.Verdict.{IsVerdict, IsVerdictBy, HasWorker};
    ghost use Rattle.rep_core.specs.Answered.{recorded_after, slip_of, IsReply};

    /// A core that stands for the empty history, and whose numbers end with `last_nsr`, from 1 to 999,999,999. It
    /// takes no memory yet.
    pub fn new(alloc: Global, last_nsr: u32) -> Core
        requires { IsLimit last_nsr }
        ensures stands { Stands result [] }
        ensures limit { result.limit ≡ last_nsr }
    {
        Core {
            entries: Vec::new(alloc),
            index: Index::new(alloc),
            hashes: Vec::new(alloc),
            tip: None,
            limit: last_nsr,
        }
    }

    /// The last number that is given out from now on, from 1 to 999,999,999. Nothing else changes.
    pub fn set_limit(&mut self, last_nsr: u32)
        requires { IsLimit last_nsr }
        ensures same { (h : List Entry) → Stands self.old h ↔ Stands self.new h }
        ensures limit { self.new.limit ≡ last_nsr }
        ensures room { self.new.room ≡ self.old.room }
        ensures rooms { self.new.rooms ≡ self.old.rooms }
    {
        self.limit = last_nsr;
    }

    /// How many entries the history has.
    pub fn count(&self) -> u32
        ensures value { (h : List Entry) → Stands self.now h → result ≡ length h }
        ensures bound { result ≤ last_nsr }
    {
        self.entries.len() as u32
    }

    /// The hash of the last clocking, or `None` where there is none.
    pub fn tip(&self) -> Option<[u8; 64]>
        ensures value { (h : List Entry) → Stands self.now h → hash_text result ≡ last_hash h }
        ensures text { IfSome result IsHashText }
    {
        self.tip
    }

    /// The number of the last employer record, or `None` where there is none.
    pub fn employer(&self) -> Option<u32>
        ensures { (h : List Entry) → Stands self.now h → FindsEmployer h result }
    {
        self.index.employer
    }

    /// The number of the entry that came by the pair, or `None` where none did.
    pub fn find(&self, origin: u16, seq: u64) -> Option<u32>
        ensures { (h : List Entry) → Stands self.now h → FindsPair origin seq h result }
    {
        self.index.origins.get(origin, seq)
    }

    /// What the worker's last registration record says, or `None` where there is none.
    pub fn worker(&self, cpf: Cpf) -> Option<WorkerState>
        ensures { (h : List Entry) → Stands self.now h → result ≡ last_worker cpf h }
    {
        let Some(nsr) = self.index.workers.get(cpf.number) else {
            return None;
        };
        worker_in(cpf, &self.entries[nsr as usize - 1].body)
    }

    /// The entry with this number, from 1 to the count.
    pub fn entry(&self, nsr: u32) -> &Entry
        requires { (h : List Entry) → Stands self.now h → (1 ≤ nsr) × (nsr ≤ length h) }
        ensures numbered { (h : List Entry) → Stands self.now h → IsNumbered h nsr result.now }
        ensures text { HasText result.now.body }
    {
        &self.entries[nsr as usize - 1]
    }

    /// The entry that came by the request's pair, or `None` where none did.
    pub fn kept(&self, q: &Request) -> Option<&Entry>
        ensures came { (h : List Entry) → Stands self.now h
            → KeepsPair q.now.origin q.now.seq h (option_copied result) }
        ensures there { (h : List Entry) → Stands self.now h
            → KeepsWhere q.now.origin q.now.seq h (option_copied result) }
        ensures text { IfSome (option_copied result) (λ e. HasText e.body) }
    {
        let Some(nsr) = self.find(q.origin, q.seq) else {
            return None;
        };
        Some(self.entry(nsr))
    }

    /// What the recorder makes of a request. `kept` is there exactly where `find` gives a number for the request's pair.
    /// The verdict is exact where it is the entry with that number, as it was recorded.
    pub fn decide(&self, q: &Request, kept: Option<&Entry>) -> Verdict
        requires { (h : List Entry) → Stands self.now h
            → KeepsWhere q.now.origin q.now.seq h (option_copied kept) }
        ensures judged { (h : List Entry) → Stands self.now h
            → IsVerdictBy (option_copied kept.entry) self.now.limit h q.now result }
        ensures exact { (h : List Entry) → Stands self.now h
            → KeepsPair q.now.origin q.now.seq h (option_copied kept.entry)
            → IsVerdict self.now.limit h q.now result }
    {
        match kept {
            Some(entry) => self.decide_again(q, entry),
            None => self.decide_new(q),
        }
    }

    // The verdict where an entry came by the request's pair, by the entry that was read.
    fn decide_again(&self, q: &Request, kept: &Entry) -> Verdict
        requires { (h : List Entry) → Stands self.now h
            → KeepsWhere q.now.origin q.now.seq h (Some kept.now) }
        ensures { (h : List Entry) → Stands self.now h
            → IsVerdictBy (Some kept.now) self.now.limit h q.now result }
    {
        let Some(nsr) = self.find(q.origin, q.seq) else {
            unreachable!();
        };
        if same(q, kept) {
            return Verdict::Repeat { nsr };
        }
        Verdict::Conflict { nsr }
    }

    // The verdict where no entry came by the request's pair.
    fn decide_new(&self, q: &Request) -> Verdict
        requires { (h : List Entry) → Stands self.now h → IsNew q.now.origin q.now.seq h }
        ensures { (h : List Entry) → Stands self.now h → IsVerdict self.now.limit h q.now result }
    {
        if !self.has_worker(&q.ask) {
            return Verdict::Unregistered;
        }
        if self.count() >= self.limit {
            return Verdict::Exhausted;
        }
        Verdict::Fresh
    }

    // Whether the workers that are named are registered as far as it is needed.
    fn has_worker(&self, ask: &Ask) -> bool
        ensures { (h : List Entry) → Stands self.now h → IsTrue result ↔ HasWorker h ask.now }
    {
        match ask {
            Ask::Mark { cpf, at, .. } => is_known(self.worker(*cpf), *at),
            Ask::Worker { op, cpf, .. } => may_be(*op, self.worker(*cpf)),
            Ask::Employer { .. } | Ask::Adjust { .. } | Ask::Event { .. } => true,
        }
    }

    /// Whether the request can be recorded without memory being taken.
    pub fn ready(&self, q: &Request) -> bool
        ensures { IsTrue result ↔ IsReady self.now q.now }
    {
        self.entries.len() < self.entries.capacity()
            && self.hashes.len() < self.hashes.capacity()
            && self.index.has_room(q.origin)
    }

    /// Takes the memory that recording the request needs. The history and the limit stay, and no origin has less room than
    /// before.
    ///
    /// # Errors
    ///
    /// `OutOfMemory` where there isn't enough. Then there is no less room for entries than before.
    pub fn reserve(&mut self, q: &Request) -> Result<(), OutOfMemory>
        ensures same { (h : List Entry) → Stands self.old h ↔ Stands self.new h }
        ensures limit { self.new.limit ≡ self.old.limit }
        ensures ready { OnOk result (IsReady self.new q.now) }
        ensures room { OnErr result (self.old.room ≤ self.new.room) }
        ensures rooms { (origin : ℕ) → room_of self.old.rooms origin ≤ room_of self.new.rooms origin }
    {
        self.entries.reserve(1)?;
        self.hashes.reserve(1)?;
        self.index.reserve(q.origin)?;
        Ok(())
    }

    /// Records a request at a stamp. It takes no memory.
    pub fn accept(&mut self, q: &Request, t: Stamp)
        requires ready { IsReady self.old q.now }
        requires asked { IsRequest q.now ⊎ IsFounding q.now }
        requires fresh { (h : List Entry) → Stands self.old h
            → IsVerdict self.old.limit h q.now Verdict.Fresh }
        ensures recorded { (h : List Entry) → Stands self.old h
            → Stands self.new (recorded_after h q.now t) }
        ensures limit { self.new.limit ≡ self.old.limit }
        ensures room { self.old.room ≤ self.new.room + 1 }
        ensures repeat { (h : List Entry) → Stands self.new h
            → IsVerdict self.new.limit h q.now (Verdict.Repeat (length h)) }
    {
        let entry = entry_made(q, t);
        let hash = hash_of(&entry.body, self.count() + 1, self.tip.as_ref());
        self.append(entry, hash);
    }

    /// Records a request at a stamp, where its record's line is at hand: a clocking's hash is taken out of the line, and
    /// not computed again. It takes no memory.
    pub fn accept_line(&mut self, q: &Request, t: Stamp, line: &[u8])
        requires ready { IsReady self.old q.now }
        requires asked { IsRequest q.now ⊎ IsFounding q.now }
        requires fresh { (h : List Entry) → Stands self.old h
            → IsVerdict self.old.limit h q.now Verdict.Fresh }
        requires line { (h : List Entry) → Stands self.old h → line.now ≡ next_line h (made_of q.now.ask t) }
        ensures recorded { (h : List Entry) → Stands self.old h
            → Stands self.new (recorded_after h q.now t) }
        ensures limit { self.new.limit ≡ self.old.limit }
        ensures room { self.old.room ≤ self.new.room + 1 }
        ensures repeat { (h : List Entry) → Stands self.new h
            → IsVerdict self.new.limit h q.now (Verdict.Repeat (length h)) }
    {
        let entry = entry_made(q, t);
        let hash = hash_within(&entry.body, line);
        self.append(entry, hash);
    }

    // One entry more, with the hash that it has behind the others.
    fn append(&mut self, entry: Entry, hash: Option<[u8; 64]>)
        requires room { 1 ≤ self.old.room }
        requires room_of { 1 ≤ room_of self.old.rooms entry.origin }
        requires number { length self.old.entries < self.old.limit }
        requires new { IsNew entry.origin entry.seq self.old.entries }
        requires text { HasText entry.body }
        requires hash { hash ≡ hash_behind self.old.entries entry.body }
        requires given { HasHash entry.body hash }
        ensures entries { self.new.entries ≡ self.old.entries ++ entry ∷ [] }
        ensures limit { self.new.limit ≡ self.old.limit }
        ensures room { self.old.room ≤ self.new.room + 1 }
    {
        // The prover finds the types inside of what is pushed only where the function names them.
        let _inside: (Option<EmployerId>, Option<Body>) = (None, None);
        self.index.note(&entry, self.entries.len() as u32 + 1);
        self.entries.push_reserved(entry);
        self.tip = hash.or(self.tip);
        self.hashes.push_reserved(hash);
    }

    /// The line of a record with the next number. The record is one that the AFD has a line for, and there is a number
    /// left.
    pub fn line(&self, body: &Body) -> AfdLine
        requires number { (h : List Entry) → Stands self.now h → length h < last_nsr }
        requires text { HasText body.now }
        ensures { (h : List Entry) → Stands self.now h → result ≡ next_line h body.now }
    {
        let nsr = self.entries.len() as u32 + 1;
        let hash = hash_of(body, nsr, self.tip.as_ref());
        print(body, nsr, hash.as_ref())
    }

    /// The line of the entry with this number, from 1 to the count.
    pub fn line_at(&self, nsr: u32) -> AfdLine
        requires { (h : List Entry) → Stands self.now h → (1 ≤ nsr) × (nsr ≤ length h) }
        ensures { (h : List Entry) → Stands self.now h
            → slice_get (history_lines h) (nsr - 1) ≡ Some result }
    {
        let place = nsr as usize - 1;
        print(&self.entries[place].body, nsr, self.hashes[place].as_ref())
    }

    /// The receipt of the entry with this number, from 1 to the count.
    pub fn slip(&self, nsr: u32) -> Slip
        requires { (h : List Entry) → Stands self.now h → (1 ≤ nsr) × (nsr ≤ length h) }
        ensures { (h : List Entry) (e : Entry) → Stands self.now h → IsNumbered h nsr e
            → result ≡ slip_of h nsr e.body }
    {
        let place = nsr as usize - 1;
        let body = &self.entries[place].body;
        Slip {
            nsr,
            marked: marked_in(body),
            recorded: recorded(body),
            hash: self.hashes[place],
        }
    }

    /// The reply to a request that was served, by its verdict over the history as it stands: a receipt for a repeat,
    /// and the refusal for each other one.
    pub fn reply(&self, q: &Request, verdict: Verdict) -> Reply
        requires verdict { (h : List Entry) → Stands self.now h
            → IsVerdict self.now.limit h q.now verdict }
        requires served { verdict ≢ Verdict.Fresh }
        ensures { (h : List Entry) → Stands self.now h → IsReply self.now.limit h q.now result }
    {
        let _q = q;
        let answer = match verdict {
            Verdict::Repeat { nsr } => Answer::Receipt(self.slip(nsr)),
            Verdict::Conflict { nsr } => Answer::Refused(Code::Conflict { nsr }),
            Verdict::Unregistered => Answer::Refused(Code::Unregistered),
            Verdict::Exhausted => Answer::Refused(Code::Exhausted),
            Verdict::Fresh => unreachable!(),
        };
        Reply {
            answer,
            front: self.count(),
        }
    }

    /// The reply to the request that was recorded last.
    pub fn receipt(&self, q: &Request) -> Reply
        requires { (h : List Entry) → Stands self.now h
            → IsVerdict self.now.limit h q.now (Verdict.Repeat (length h)) }
        ensures { (h : List Entry) → Stands self.now h → IsReply self.now.limit h q.now result }
    {
        let nsr = self.count();
        self.reply(q, Verdict::Repeat { nsr })
    }
}

// The entry that a request becomes at a stamp.
fn entry_made(q: &Request, t: Stamp) -> Entry
    ensures { result ≡ entry_of q.now t }
{
    Entry {
        origin: q.origin,
        seq: q.seq,
        body: made(q, t),
    }
}

// The hash that the record with this number has, where `tip` is that of the last clocking before: a clocking has one,
// and no other record.
fn hash_of(body: &Body, nsr: u32, tip: Option<&[u8; 64]>) -> Option<[u8; 64]>
    requires nsr { IsNsr nsr }
    requires text { HasText body.now }
    ensures value { result ≡ linked nsr body.now (option_copied tip.entry) }
    ensures given { HasHash body.now result }
{
    match body {
        Body::Clocking { .. } => {
            let payload = stem(body, nsr);
            Some(link(tip, payload.bytes()))
        }
        Body::Employer { .. } | Body::Adjust { .. } | Body::Worker { .. } | Body::Event { .. } =>
            None,
    }
}

// The hash in which a clocking's line ends. No other record has one.
fn hash_within(body: &Body, line: &[u8]) -> Option<[u8; 64]>
    ensures { (h : List Entry) → line.now ≡ next_line h body.now → result ≡ hash_behind h body.now }
{
    match body {
        Body::Clocking { .. } => line.last_chunk().copied(),
        Body::Employer { .. } | Body::Adjust { .. } | Body::Worker { .. } | Body::Event { .. } =>
            None,
    }
}

// The marked stamp of a clocking.
fn marked_in(body: &Body) -> Option<Stamp>
    ensures { result ≡ marked_in body.now }
{
    match body {
        Body::Clocking { marked, .. } => Some(*marked),
        Body::Employer { .. } | Body::Adjust { .. } | Body::Worker { .. } | Body::Event { .. } =>
            None,
    }
}
