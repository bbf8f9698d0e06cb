ghost use Rattle.std.specs.Prelude.{◌≡◌, ◌≢◌, ℕ, ◌∷◌, [], codes, IfOk, IfErr};
ghost use Rattle.std.specs.Option.{option_copied};
ghost use Rattle.afd_records.specs.Record.{IsCollector};
ghost use Rattle.rep_wire.specs.Fields.{fields_behind};
ghost use Rattle.rep_wire.specs.LaneGrammar.{IsLaneHead, HasCollector, collector_of};
ghost use Rattle.rep_wire.specs.Asking.{Asks, AsksPeriod, OrdersBehind, IsFault, collector_in};

use crate::cut::{EmployerFields, WorkerFields, five, next, one, six, two};
use crate::head::{LaneHead, OPERATOR};
use crate::letter::Letter;
use crate::request::{Ask, Order, Request};
use crate::value::{
    is_employer_kind, read_cno, read_employer_name, read_event_code, read_id, read_last_day,
    read_op, read_worker_name,
};
use rep_fields::{Cpf, Day, Stamp, Text};

/// The collector that is recorded with the clockings of an operator's lane: another device.
const OTHER_COLLECTOR: u8 = 5;

/// What is wrong with the fields of a line.
#[derive(Clone, Copy, Debug)]
pub enum Fault {
    /// Their number isn't the letter's.
    Number,
    /// The first field that isn't of its kind, counted from 1.
    Field(u8),
}

/// Reads what is ordered by the fields behind the second of a line with this letter, where its number is `seq`.
pub fn read_order(
    head: &LaneHead,
    letter: Letter,
    seq: u64,
    fields: Option<&[u8]>,
) -> Result<Order, Fault>
    requires { IsLaneHead head.now }
    ensures ordered { IfOk result (OrdersBehind head.now letter seq (fields_behind (option_copied fields.entry))) }
    ensures fault { IfErr result (IsFault letter (fields_behind (option_copied fields.entry))) }
{
    match letter {
        Letter::Extract => read_period(seq, fields),
        Letter::Mark | Letter::Employer | Letter::Worker | Letter::Adjust | Letter::Event => {
            match read_ask(head, letter, fields) {
                Ok(ask) => Ok(Order::Asked(Request {
                    origin: head.origin,
                    seq,
                    ask,
                })),
                Err(fault) => Err(fault),
            }
        }
    }
}

// `from|to`.
fn read_period(seq: u64, fields: Option<&[u8]>) -> Result<Order, Fault>
    ensures ordered { IfOk result (λ order. (from : ℕ) × (to : ℕ) × (order ≡ Order.Extract seq from to)
        × AsksPeriod (fields_behind (option_copied fields.entry)) from to) }
    ensures fault { IfErr result (IsFault Letter.Extract (fields_behind (option_copied fields.entry))) }
{
    let Some((from, to)) = two(fields) else {
        return Err(Fault::Number);
    };
    let Some(first) = Day::read(from) else {
        return Err(Fault::Field(3));
    };
    let Some(last) = read_last_day(&first, to) else {
        return Err(Fault::Field(4));
    };
    Ok(Order::Extract {
        seq,
        from: first,
        to: last,
    })
}

// Reads what is asked by the fields behind the second of a line with this letter.
fn read_ask(head: &LaneHead, letter: Letter, fields: Option<&[u8]>) -> Result<Ask, Fault>
    requires head { IsLaneHead head.now }
    requires asks { letter ≢ Letter.Extract }
    ensures asked { IfOk result (Asks letter (fields_behind (option_copied fields.entry))) }
    ensures collector { IfOk result (HasCollector head.now) }
    ensures fault { IfErr result (IsFault letter (fields_behind (option_copied fields.entry))) }
{
    match letter {
        Letter::Mark => read_mark(collector(head), fields),
        Letter::Employer => read_employer(fields),
        Letter::Worker => read_worker(fields),
        Letter::Adjust => read_adjustment(fields),
        Letter::Event => read_event(fields),
        Letter::Extract => unreachable!(),
    }
}

// The collector that is recorded with the lane's clockings.
fn collector(head: &LaneHead) -> u8
    ensures { result ≡ collector_of head.now }
{
    if head.kind == OPERATOR {
        OTHER_COLLECTOR
    } else {
        head.kind
    }
}

// `cpf|0`, or `cpf|1|stamp`.
fn read_mark(collector: u8, fields: Option<&[u8]>) -> Result<Ask, Fault>
    requires { IsCollector collector }
    ensures asked { IfOk result (Asks Letter.Mark (fields_behind (option_copied fields.entry))) }
    ensures collector { IfOk result (λ ask. collector_in ask ≡ Some collector) }
    ensures fault { IfErr result (IsFault Letter.Mark (fields_behind (option_copied fields.entry))) }
{
    let Some((cpf, rest)) = next(fields) else {
        return Err(Fault::Number);
    };
    let Some((mode, rest)) = next(rest) else {
        return Err(Fault::Number);
    };
    if mode == b"1".as_slice() {
        let Some(at) = one(rest) else {
            return Err(Fault::Number);
        };
        return read_offline(collector, cpf, at);
    }
    if let Some(_) = rest {
        return Err(Fault::Number);
    }
    let Some(cpf) = Cpf::read(cpf) else {
        return Err(Fault::Field(3));
    };
    if mode != b"0".as_slice() {
        return Err(Fault::Field(4));
    }
    Ok(Ask::Mark {
        cpf,
        collector,
        at: None,
    })
}

// `cpf|1|stamp`, of which the mode is known.
fn read_offline(collector: u8, cpf: &[u8], at: &[u8]) -> Result<Ask, Fault>
    requires { IsCollector collector }
    ensures asked { IfOk result (Asks Letter.Mark (cpf.now ∷ codes "1" ∷ at.now ∷ [])) }
    ensures collector { IfOk result (λ ask. collector_in ask ≡ Some collector) }
    ensures fault { IfErr result (IsFault Letter.Mark (cpf.now ∷ codes "1" ∷ at.now ∷ [])) }
{
    let Some(cpf) = Cpf::read(cpf) else {
        return Err(Fault::Field(3));
    };
    let Some(at) = Stamp::read(at) else {
        return Err(Fault::Field(5));
    };
    Ok(Ask::Mark {
        cpf,
        collector,
        at: Some(at),
    })
}

// `responsible|kind|id|cno|name|place`.
fn read_employer(fields: Option<&[u8]>) -> Result<Ask, Fault>
    ensures asked { IfOk result (Asks Letter.Employer (fields_behind (option_copied fields.entry))) }
    ensures fault { IfErr result (IsFault Letter.Employer (fields_behind (option_copied fields.entry))) }
{
    let Some(
        EmployerFields {
            resp,
            kind,
            id,
            cno,
            name,
            place,
        },
    ) = six(fields)
    else {
        return Err(Fault::Number);
    };
    let Some(resp) = Cpf::read(resp) else {
        return Err(Fault::Field(3));
    };
    if !is_employer_kind(kind) {
        return Err(Fault::Field(4));
    }
    let Some(id) = read_id(kind, id) else {
        return Err(Fault::Field(5));
    };
    let Some(cno) = read_cno(cno) else {
        return Err(Fault::Field(6));
    };
    let Some(name) = read_employer_name(name) else {
        return Err(Fault::Field(7));
    };
    let Some(place) = Text::read(place) else {
        return Err(Fault::Field(8));
    };
    Ok(Ask::Employer {
        resp,
        id,
        cno,
        name,
        place,
    })
}

// `operation|cpf|name|extra|responsible`.
fn read_worker(fields: Option<&[u8]>) -> Result<Ask, Fault>
    ensures asked { IfOk result (Asks Letter.Worker (fields_behind (option_copied fields.entry))) }
    ensures fault { IfErr result (IsFault Letter.Worker (fields_behind (option_copied fields.entry))) }
{
    let Some(
        WorkerFields {
            op,
            cpf,
            name,
            extra,
            resp,
        },
    ) = five(fields)
    else {
        return Err(Fault::Number);
    };
    let Some(op) = read_op(op) else {
        return Err(Fault::Field(3));
    };
    let Some(cpf) = Cpf::read(cpf) else {
        return Err(Fault::Field(4));
    };
    let Some(name) = read_worker_name(op, name) else {
        return Err(Fault::Field(5));
    };
    let Some(extra) = Text::read(extra) else {
        return Err(Fault::Field(6));
    };
    let Some(resp) = Cpf::read(resp) else {
        return Err(Fault::Field(7));
    };
    Ok(Ask::Worker {
        op,
        cpf,
        name,
        extra,
        resp,
    })
}

// `stamp before|responsible`.
fn read_adjustment(fields: Option<&[u8]>) -> Result<Ask, Fault>
    ensures asked { IfOk result (Asks Letter.Adjust (fields_behind (option_copied fields.entry))) }
    ensures fault { IfErr result (IsFault Letter.Adjust (fields_behind (option_copied fields.entry))) }
{
    let Some((before, resp)) = two(fields) else {
        return Err(Fault::Number);
    };
    let Some(before) = Stamp::read(before) else {
        return Err(Fault::Field(3));
    };
    let Some(resp) = Cpf::read(resp) else {
        return Err(Fault::Field(4));
    };
    Ok(Ask::Adjust { before, resp })
}

// `code`.
fn read_event(fields: Option<&[u8]>) -> Result<Ask, Fault>
    ensures asked { IfOk result (Asks Letter.Event (fields_behind (option_copied fields.entry))) }
    ensures fault { IfErr result (IsFault Letter.Event (fields_behind (option_copied fields.entry))) }
{
    let Some(code) = one(fields) else {
        return Err(Fault::Number);
    };
    let Some(code) = read_event_code(code) else {
        return Err(Fault::Field(3));
    };
    Ok(Ask::Event { code })
}
