ghost use Rattle.std.specs.Prelude.{◌≡◌, ℕ, suc, ◌+◌, ◌≤◌, ◌↔◌, [], ◌∷◌, ◌++◌, List, length, OnOk, IsTrue, Some, None, if◌then◌else◌};
ghost use Rattle.rep_wire.specs.declared.request.Entry.{Entry as TheEntry};
ghost use Rattle.rep_core.specs.History.{IsNew};
ghost use Rattle.rep_core.specs.Lookup.{is_employer};
ghost use Rattle.rep_core.specs.Numbers.{SetsOnly};
ghost use Rattle.rep_core.specs.Index.{IsIndexOf, HasRoom, room_in, worker_of};

use crate::numbers::Numbers;
use crate::origins::Origins;
use crate::search::is_employer;
use afd_records::Body;
use rep_fields::Cpf;
use rep_io::OutOfMemory;
use rep_wire::Entry;
use std::alloc::Global;

/// What makes the look-ups in a history short: the number of each pair, of each worker's last registration record and of
/// the last employer record.
#[derive(Drop)]
pub(crate) struct Index {
    pub origins: Origins,
    pub workers: Numbers,
    pub employer: Option<u32>,
}

impl Index {
    /// The index of the empty history. It takes no memory yet.
    pub fn new(alloc: Global) -> Index
        ensures { IsIndexOf result [] }
    {
        Index {
            origins: Origins::new(alloc),
            workers: Numbers::new(alloc),
            employer: None,
        }
    }

    /// Whether an entry of the origin can be noted.
    pub fn has_room(&self, origin: u16) -> bool
        ensures { IsTrue result ↔ HasRoom self.now origin }
    {
        self.workers.has_room() && self.origins.has_room(origin)
    }

    /// Takes the memory for one entry more of the origin.
    pub fn reserve(&mut self, origin: u16) -> Result<(), OutOfMemory>
        ensures same { (h : List TheEntry) → IsIndexOf self.old h → IsIndexOf self.new h }
        ensures made { OnOk result (HasRoom self.new origin) }
        ensures room { self.old.workers.room ≤ self.new.workers.room }
        ensures rooms { (other : ℕ) → room_in self.old.origins other ≤ room_in self.new.origins other }
    {
        self.workers.reserve()?;
        self.origins.reserve(origin)?;
        Ok(())
    }

    /// Notes the entry with the next number. It takes no memory.
    pub fn note(&mut self, entry: &Entry, nsr: u32)
        requires { HasRoom self.old entry.now.origin }
        ensures noted { (h : List TheEntry) → IsIndexOf self.old h → IsNew entry.now.origin entry.now.seq h
            → nsr ≡ suc (length h) → IsIndexOf self.new (h ++ entry.now ∷ []) }
        ensures room { self.old.workers.room ≤ self.new.workers.room + 1 }
    {
        self.origins.set(entry.origin, entry.seq, nsr);
        note_worker(&mut self.workers, &entry.body, nsr);
        self.employer = employer_after(self.employer, &entry.body, nsr);
    }
}

// Notes the worker of a registration record.
fn note_worker(workers: &mut Numbers, body: &Body, nsr: u32)
    requires { 1 ≤ workers.old.room }
    ensures noted { (cpf : ℕ) → worker_of body.now ≡ Some cpf → SetsOnly workers.old.pairs workers.new.pairs cpf nsr }
    ensures kept { worker_of body.now ≡ None → workers.new.pairs ≡ workers.old.pairs }
    ensures room { workers.old.room ≤ workers.new.room + 1 }
{
    if let Some(cpf) = worker_of(body) {
        workers.set(cpf.number, nsr);
    }
}

// The number of the last employer record, with one record more.
fn employer_after(before: Option<u32>, body: &Body, nsr: u32) -> Option<u32>
    ensures { result ≡ (if is_employer body.now then Some nsr else before) }
{
    if is_employer(body) { Some(nsr) } else { before }
}

// The worker of a registration record.
fn worker_of(body: &Body) -> Option<Cpf>
    ensures { result ≡ worker_of body.now }
{
    match body {
        Body::Worker { cpf, .. } => Some(*cpf),
        Body::Employer { .. } | Body::Adjust { .. } | Body::Event { .. } | Body::Clocking { .. } =>
            None,
    }
}
