//! A journal's lines, taken in one after another.
ghost use Rattle.std.specs.Prelude.{◌≡◌, ◌↔◌, List, [], ◌∷◌, ◌++◌, length, Some, OnOk, OnErr, IfNone, IfSome, IsTrue};
ghost use Rattle.afd_records.specs.Record.{last_nsr, IsBody};
ghost use Rattle.rep_wire.specs.declared.request.Entry.{Entry as TheEntry};
ghost use Rattle.rep_wire.specs.declared.request.Request.{Request as TheRequest};
ghost use Rattle.rep_core.specs.Core.{Stands};
ghost use Rattle.rep_core.specs.Verdict.{IsVerdict};
ghost use Rattle.rep_ledger.specs.Asked.{Became};
ghost use Rattle.rep_ledger.specs.Fitting.{IsNextLine};
ghost use Rattle.rep_ledger.specs.Taking.{IsRecording, MayBecomeNext};

use crate::asked::{asked_of, founding_of};
use afd_records::{read, recorded};
use rep_core::{Core, Verdict};
use rep_fields::Stamp;
use rep_wire::{Entry, Request};

/// Why no entry was recorded of a line.
#[derive(Clone, Copy, Debug, PartialEq, Eq)]
pub enum NotTaken {
    /// It isn't the line of an entry that can stand next.
    Misfit,
    /// There wasn't enough memory.
    OutOfMemory,
}

// A request, and the stamp at which it was recorded.
#[derive(Clone, Copy)]
struct Recording {
    request: Request,
    at: Stamp,
}

/// Records the entry of a journal's next line, which came by this pair of origin and sequence number.
///
/// # Errors
///
/// `Misfit` exactly where there is no such entry that can stand next: the first is a site's employer record, and each
/// other one is that of a request that was to be recorded after those before. `OutOfMemory`. The history then stays.
pub fn take_in(core: &mut Core, origin: u16, seq: u64, line: &[u8]) -> Result<(), NotTaken>
    requires { core.old.limit ≡ last_nsr }
    ensures taken { OnOk result ((h : List TheEntry) → Stands core.old h
        → (e : TheEntry) × IsNextLine h origin seq line.now e × Stands core.new (h ++ e ∷ [])) }
    ensures misfit { result ≡ Err NotTaken.Misfit → (h : List TheEntry) (e : TheEntry) → Stands core.old h
        → IsNextLine h origin seq line.now e → ⊥ }
    ensures kept { OnErr result ((h : List TheEntry) → Stands core.old h → Stands core.new h) }
    ensures limit { core.new.limit ≡ core.old.limit }
{
    let Some(next) = recording_of(core, origin, seq, line) else {
        return Err(NotTaken::Misfit);
    };
    if core.reserve(&next.request).is_err() {
        return Err(NotTaken::OutOfMemory);
    }
    core.accept_line(&next.request, next.at, line);
    Ok(())
}

// The request that became the entry of the next line, where there is one.
fn recording_of(core: &Core, origin: u16, seq: u64, line: &[u8]) -> Option<Recording>
    requires { core.now.limit ≡ last_nsr }
    ensures found { IfSome result (λ r. (h : List TheEntry) → Stands core.now h
        → IsRecording h origin seq line.now r) }
    ensures none { IfNone result ((h : List TheEntry) (e : TheEntry) → Stands core.now h
        → IsNextLine h origin seq line.now e → ⊥) }
{
    let Ok(found) = read(line) else {
        return None;
    };
    let entry = Entry {
        origin,
        seq,
        body: found.body,
    };
    let Some(request) = request_of(core.count(), &entry) else {
        return None;
    };
    if !is_fresh(core, &request) {
        return None;
    }
    if core.line(&entry.body).bytes() != line {
        return None;
    }
    Some(Recording {
        request,
        at: recorded(&entry.body),
    })
}

// The request that became the entry behind so many others: the first is the site's.
fn request_of(count: u32, entry: &Entry) -> Option<Request>
    requires { IsBody entry.now.body }
    ensures asked { (h : List TheEntry) → count ≡ length h
        → IfSome result (λ q. Became (MayBecomeNext h) q entry.now) }
    ensures only { (h : List TheEntry) (q : TheRequest) → count ≡ length h
        → Became (MayBecomeNext h) q entry.now → result ≡ Some q }
{
    if count == 0 {
        founding_of(entry)
    } else {
        asked_of(entry)
    }
}

// Whether the request is to be recorded. It isn't where an entry came by its pair, whatever that entry says.
fn is_fresh(core: &Core, q: &Request) -> bool
    ensures { (h : List TheEntry) → Stands core.now h
        → IsTrue result ↔ IsVerdict core.now.limit h q.now Verdict.Fresh }
{
    if let Some(_) = core.find(q.origin, q.seq) {
        return false;
    }
    match core.decide(q, None) {
        Verdict::Fresh => true,
        Verdict::Repeat { .. }
        | Verdict::Conflict { .. }
        | Verdict::Unregistered
        | Verdict::Exhausted => false,
    }
}
