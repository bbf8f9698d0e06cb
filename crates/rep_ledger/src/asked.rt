//! The request that became an entry.
ghost use Rattle.std.specs.Prelude.{◌≡◌, ◌↔◌, ℕ, List, [], Some, IfSome, IsTrue};
ghost use Rattle.rep_fields.specs.Moment.{Moment};
ghost use Rattle.afd_records.specs.Record.{IsBody};
ghost use Rattle.afd_records.specs.declared.record.Body.TheVariants.{Clocking};
ghost use Rattle.rep_wire.specs.Request.{IsFounding, IsOrigin, IsRequest, IsSeq, IsWorkerName, HasNoBar};
ghost use Rattle.rep_wire.specs.declared.request.Request.{Request as TheRequest};
ghost use Rattle.rep_ledger.specs.Asked.{Became, IsAskOf, IsOfSite, IsSayable};

use afd_records::{Body, Op};
use rep_fields::{Cpf, Stamp};
use rep_wire::{Ask, Entry, Request};

/// The greatest number that an origin gives to a request.
const LAST_SEQ: u64 = 999_999_999_999;

/// The one request that some line of a lane asks and that became the entry. `None` exactly where there is none: where a
/// text has a bar, a name is missing, a clocking that came at once is marked at another stamp than it is recorded at,
/// or the origin or the sequence number is out of its range. Each part of the record is in its range.
pub fn asked_of(entry: &Entry) -> Option<Request>
    requires { IsBody entry.now.body }
    ensures asked { IfSome result (λ q. Became IsRequest q entry.now) }
    ensures only { (q : TheRequest) → Became IsRequest q entry.now → result ≡ Some q }
{
    if !is_lane_pair(entry.origin, entry.seq) {
        return None;
    }
    let Some(ask) = ask_of(&entry.body) else {
        return None;
    };
    if !is_sayable(&ask) {
        return None;
    }
    Some(Request {
        origin: entry.origin,
        seq: entry.seq,
        ask,
    })
}

/// The one request of a site's employer record that became the entry. `None` exactly where there is none: where it is no
/// employer record with a name, or its origin or its sequence number isn't 0. Each part of the record is in its range.
pub fn founding_of(entry: &Entry) -> Option<Request>
    requires { IsBody entry.now.body }
    ensures founding { IfSome result (λ q. Became IsFounding q entry.now) }
    ensures only { (q : TheRequest) → Became IsFounding q entry.now → result ≡ Some q }
{
    if entry.origin != 0 || entry.seq != 0 {
        return None;
    }
    let Some(ask) = ask_of(&entry.body) else {
        return None;
    };
    if !is_of_site(&ask) {
        return None;
    }
    Some(Request {
        origin: entry.origin,
        seq: entry.seq,
        ask,
    })
}

// Whether some lane's line can have this origin and this sequence number.
fn is_lane_pair(origin: u16, seq: u64) -> bool
    ensures { IsTrue result ↔ (IsOrigin origin × IsSeq seq) }
{
    1 <= origin && 1 <= seq && seq <= LAST_SEQ
}

// What was asked where the record was made.
fn ask_of(body: &Body) -> Option<Ask>
    ensures { IsAskOf body.now result }
{
    match body {
        Body::Employer {
            at: _,
            resp,
            id,
            cno,
            name,
            place,
        } => Some(Ask::Employer {
            resp: *resp,
            id: *id,
            cno: *cno,
            name: *name,
            place: *place,
        }),
        Body::Adjust {
            before,
            after: _,
            resp,
        } => Some(Ask::Adjust {
            before: *before,
            resp: *resp,
        }),
        Body::Worker {
            at: _,
            op,
            cpf,
            name,
            extra,
            resp,
        } => Some(Ask::Worker {
            op: *op,
            cpf: *cpf,
            name: *name,
            extra: *extra,
            resp: *resp,
        }),
        Body::Event { at: _, code } => Some(Ask::Event { code: *code }),
        Body::Clocking {
            marked,
            cpf,
            recorded,
            collector,
            offline,
        } => mark_of(*marked, *cpf, *recorded, *collector, *offline),
    }
}

// What was asked where a clocking was recorded. One that came at once is marked when it is recorded.
fn mark_of(marked: Stamp, cpf: Cpf, recorded: Stamp, collector: u8, offline: bool) -> Option<Ask>
    ensures { IsAskOf (Body.Clocking marked cpf recorded collector offline) result }
{
    if offline {
        return Some(Ask::Mark {
            cpf,
            collector,
            at: Some(marked),
        });
    }
    if marked != recorded {
        return None;
    }
    Some(Ask::Mark {
        cpf,
        collector,
        at: None,
    })
}

// Whether the texts are such as a request line can say.
fn is_sayable(ask: &Ask) -> bool
    ensures { IsTrue result ↔ IsSayable ask.now }
{
    match ask {
        Ask::Employer { name, place, .. } => {
            !name.is_empty() && has_no_bar(name.bytes()) && has_no_bar(place.bytes())
        }
        Ask::Worker {
            op,
            name,
            extra,
            ..
        } => {
            is_named(*op, name.is_empty()) && has_no_bar(name.bytes()) && has_no_bar(extra.bytes())
        }
        Ask::Mark { .. } | Ask::Adjust { .. } | Ask::Event { .. } => true,
    }
}

// Whether a worker's name is there where it has to be.
fn is_named(op: Op, is_empty: bool) -> bool
    ensures { (name : List ℕ) → (IsTrue is_empty ↔ (name ≡ [])) → IsTrue result ↔ IsWorkerName op name }
{
    match op {
        Op::Include | Op::Amend => !is_empty,
        Op::Exclude => true,
    }
}

// Whether the text can stand between two bars.
fn has_no_bar(text: &[u8]) -> bool
    ensures { IsTrue result ↔ HasNoBar text.now }
{
    text.iter().all(|byte| *byte != b'|')
}

// Whether it is a site's employer, with a name.
fn is_of_site(ask: &Ask) -> bool
    ensures { IsTrue result ↔ IsOfSite ask.now }
{
    match ask {
        Ask::Employer { name, .. } => !name.is_empty(),
        Ask::Mark { .. } | Ask::Worker { .. } | Ask::Adjust { .. } | Ask::Event { .. } => false,
    }
}
