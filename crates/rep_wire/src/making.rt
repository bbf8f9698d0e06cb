ghost use Rattle.std.specs.Prelude.{◌≡◌, ◌↔◌, IsTrue};
ghost use Rattle.rep_wire.specs.Made.{made_of, IsSame};

use crate::request::{Ask, Entry, Request};
use afd_records::{Body, Op};
use rep_fields::{Cpf, EmployerId, Stamp, Text};

/// The record that the request becomes when it is recorded at `t`. A clocking that wasn't kept offline is marked then,
/// and an adjustment set the clock to that stamp.
pub fn made(q: &Request, t: Stamp) -> Body
    ensures { result ≡ made_of q.now.ask t }
{
    match &q.ask {
        Ask::Mark { cpf, collector, at } => marked(*cpf, *collector, *at, t),
        Ask::Employer {
            resp,
            id,
            cno,
            name,
            place,
        } => Body::Employer {
            at: t,
            resp: *resp,
            id: *id,
            cno: *cno,
            name: *name,
            place: *place,
        },
        Ask::Worker {
            op,
            cpf,
            name,
            extra,
            resp,
        } => Body::Worker {
            at: t,
            op: *op,
            cpf: *cpf,
            name: *name,
            extra: *extra,
            resp: *resp,
        },
        Ask::Adjust { before, resp } => Body::Adjust {
            before: *before,
            after: t,
            resp: *resp,
        },
        Ask::Event { code } => Body::Event { at: t, code: *code },
    }
}

// The clocking that is recorded at `t`, marked then or kept offline since `at`.
fn marked(cpf: Cpf, collector: u8, at: Option<Stamp>, t: Stamp) -> Body
    ensures { result ≡ made_of (Ask.Mark cpf collector at) t }
{
    match at {
        Some(marked) => Body::Clocking {
            marked,
            cpf,
            recorded: t,
            collector,
            offline: true,
        },
        None => Body::Clocking {
            marked: t,
            cpf,
            recorded: t,
            collector,
            offline: false,
        },
    }
}

/// Whether the entry's record has the request's content: all of it agrees but what the recorder stamps. That is the
/// recording stamp, and the marked stamp of a clocking that wasn't kept offline.
pub fn same(q: &Request, e: &Entry) -> bool
    ensures { IsTrue result ↔ IsSame q.now.ask e.now.body }
{
    match &q.ask {
        Ask::Mark { cpf, collector, at } => is_clocking_of(*cpf, *collector, *at, &e.body),
        Ask::Employer {
            resp,
            id,
            cno,
            name,
            place,
        } => is_employer_of(*resp, *id, *cno, name, place, &e.body),
        Ask::Worker {
            op,
            cpf,
            name,
            extra,
            resp,
        } => is_worker_of(*op, *cpf, name, extra, *resp, &e.body),
        Ask::Adjust { before, resp } => is_adjustment_of(*before, *resp, &e.body),
        Ask::Event { code } => is_event_of(*code, &e.body),
    }
}

fn is_clocking_of(asked_cpf: Cpf, asked_collector: u8, at: Option<Stamp>, body: &Body) -> bool
    ensures { IsTrue result ↔ IsSame (Ask.Mark asked_cpf asked_collector at) body.now }
{
    let Body::Clocking {
        marked,
        cpf,
        recorded: _,
        collector,
        offline,
    } = body
    else {
        return false;
    };
    let is_mark = match at {
        Some(at) => *offline && *marked == at,
        None => !*offline,
    };
    *cpf == asked_cpf && *collector == asked_collector && is_mark
}

fn is_employer_of(
    asked_resp: Cpf,
    asked_id: EmployerId,
    asked_cno: u64,
    asked_name: &Text<150>,
    asked_place: &Text<100>,
    body: &Body,
) -> bool
    ensures { IsTrue result
        ↔ IsSame (Ask.Employer asked_resp asked_id asked_cno asked_name.now asked_place.now) body.now }
{
    let Body::Employer {
        at: _,
        resp,
        id,
        cno,
        name,
        place,
    } = body
    else {
        return false;
    };
    *resp == asked_resp
        && *id == asked_id
        && *cno == asked_cno
        && *name == *asked_name
        && *place == *asked_place
}

fn is_worker_of(
    asked_op: Op,
    asked_cpf: Cpf,
    asked_name: &Text<52>,
    asked_extra: &Text<4>,
    asked_resp: Cpf,
    body: &Body,
) -> bool
    ensures { IsTrue result
        ↔ IsSame (Ask.Worker asked_op asked_cpf asked_name.now asked_extra.now asked_resp) body.now }
{
    let Body::Worker {
        at: _,
        op,
        cpf,
        name,
        extra,
        resp,
    } = body
    else {
        return false;
    };
    *op == asked_op
        && *cpf == asked_cpf
        && *name == *asked_name
        && *extra == *asked_extra
        && *resp == asked_resp
}

fn is_adjustment_of(asked_before: Stamp, asked_resp: Cpf, body: &Body) -> bool
    ensures { IsTrue result ↔ IsSame (Ask.Adjust asked_before asked_resp) body.now }
{
    let Body::Adjust {
        before,
        after: _,
        resp,
    } = body
    else {
        return false;
    };
    *before == asked_before && *resp == asked_resp
}

fn is_event_of(asked_code: u8, body: &Body) -> bool
    ensures { IsTrue result ↔ IsSame (Ask.Event asked_code) body.now }
{
    let Body::Event { at: _, code } = body else {
        return false;
    };
    *code == asked_code
}
