ghost use Rattle.std.specs.Prelude.{◌≡◌, ◌∷◌, ℕ, ◌≤◌, Option, List, length, take, drop, IfOk, IfErr};
ghost use Rattle.rep_fields.specs.Digits.{numeral};
ghost use Rattle.rep_fields.specs.Moment.{moment_text, IsMoment};
ghost use Rattle.afd_records.specs.Record.{IsNsr};
ghost use Rattle.afd_records.specs.Line.{IsLineOf};
ghost use Rattle.afd_records.specs.Fields.{Layout, IsLaidOut, IsFirstBad, IsFirstBadFrom, employer_layout, adjust_layout, worker_layout, event_layout, clocking_layout};
ghost use Rattle.afd_records.specs.Reading.{IsReadFrom, no_notes};
ghost use Rattle.afd_records.specs.declared.record.Body.{Body as TheBody};

use crate::checksum::ends_in_checksum;
use crate::error::{BadLine, Notes};
use crate::fields::{
    is_employer_kind, read_cno, read_collector, read_cpf, read_event, read_hash, read_id, read_nsr,
    read_offline, read_op, read_text,
};
use crate::line::{ADJUST_LEN, CLOCKING_LEN, EMPLOYER_LEN, EVENT_LEN, WORKER_LEN};
use crate::record::Body;
use rep_fields::Stamp;

// Where the digit of the type stands.
pub(crate) const TYPE_AT: usize = 9;

/// A line of a record that was read.
#[derive(Clone, Copy, Debug, PartialEq, Eq)]
pub struct ReadLine {
    /// The record's number (`NSR`), 1 to 999,999,999.
    pub nsr: u32,
    /// The record.
    pub body: Body,
    /// A clocking's hash, of 64 hexadecimal digits; other records have none.
    pub hash: Option<[u8; 64]>,
    /// What is told of the line beside its values.
    pub notes: Notes,
}

/// Reads the line of a record, without its end: just the lines that `print` gives, each with its values.
///
/// # Errors
///
/// `BadLine` exactly where `print` gives no such line. Its `field` is 0 where the line's type or length isn't in the
/// table of Portaria MTP 671/2021, annex V, else the number of the first field that is off its grammar.
pub fn read(line: &[u8]) -> Result<ReadLine, BadLine>
    ensures found { IfOk result (IsReadFrom line.now) }
    ensures only { (nsr : ℕ) → (body : TheBody) → (hash : Option (List ℕ)) → IsLineOf nsr body hash line.now
        → result ≡ Ok (record { nsr = nsr; body = body; hash = hash; notes = no_notes }) }
    ensures unknown { ((layout : Layout) → IsLaidOut layout line.now → ⊥) → result ≡ Err (record { field = 0 }) }
    ensures first { (layout : Layout) → IsLaidOut layout line.now
        → IfErr result (λ bad. IsFirstBad layout line.now bad.field) }
{
    read_by_type(line)
}

// Reads by the layout of the line's type, field by field; the places are those of the annex's table.
fn read_by_type(line: &[u8]) -> Result<ReadLine, BadLine>
    ensures found { IfOk result (IsReadFrom line.now) }
    ensures unknown { ((layout : Layout) → IsLaidOut layout line.now → ⊥) → result ≡ Err (record { field = 0 }) }
    ensures first { (layout : Layout) → IsLaidOut layout line.now
        → IfErr result (λ bad. IsFirstBad layout line.now bad.field) }
{
    if line.len() <= TYPE_AT {
        return Err(BadLine { field: 0 });
    }
    match (line[TYPE_AT], line.len()) {
        (b'2', EMPLOYER_LEN) => read_employer(line),
        (b'4', ADJUST_LEN) => read_adjust(line),
        (b'5', WORKER_LEN) => read_worker(line),
        (b'6', EVENT_LEN) => read_event_line(line),
        (b'7', CLOCKING_LEN) => read_clocking(line),
        _ => Err(BadLine { field: 0 }),
    }
}

fn read_event_line(line: &[u8]) -> Result<ReadLine, BadLine>
    requires { IsLaidOut event_layout line.now }
    ensures found { IfOk result (IsReadFrom line.now) }
    ensures first { IfErr result (λ bad. IsFirstBad event_layout line.now bad.field) }
{
    let Some(nsr) = read_nsr(&line[..9]) else {
        return Err(BadLine { field: 1 });
    };
    let Some(at) = Stamp::read(&line[10..34]) else {
        return Err(BadLine { field: 3 });
    };
    let Some(code) = read_event(&line[34..36]) else {
        return Err(BadLine { field: 4 });
    };
    Ok(ReadLine {
        nsr,
        body: Body::Event { at, code },
        hash: None,
        notes: Notes::NONE,
    })
}

fn read_clocking(line: &[u8]) -> Result<ReadLine, BadLine>
    requires { IsLaidOut clocking_layout line.now }
    ensures found { IfOk result (IsReadFrom line.now) }
    ensures first { IfErr result (λ bad. IsFirstBad clocking_layout line.now bad.field) }
{
    let Some(nsr) = read_nsr(&line[..9]) else {
        return Err(BadLine { field: 1 });
    };
    let Some(marked) = Stamp::read(&line[10..34]) else {
        return Err(BadLine { field: 3 });
    };
    let Some(cpf) = read_cpf::<12>(&line[34..46]) else {
        return Err(BadLine { field: 4 });
    };
    let Some(recorded) = Stamp::read(&line[46..70]) else {
        return Err(BadLine { field: 5 });
    };
    let Some(collector) = read_collector(&line[70..72]) else {
        return Err(BadLine { field: 6 });
    };
    let Some(offline) = read_offline(&line[72..73]) else {
        return Err(BadLine { field: 7 });
    };
    let Some(hash) = read_hash(&line[73..137]) else {
        return Err(BadLine { field: 8 });
    };
    Ok(ReadLine {
        nsr,
        body: Body::Clocking {
            marked,
            cpf,
            recorded,
            collector,
            offline,
        },
        hash: Some(hash),
        notes: Notes::NONE,
    })
}

fn read_adjust(line: &[u8]) -> Result<ReadLine, BadLine>
    requires { IsLaidOut adjust_layout line.now }
    ensures found { IfOk result (IsReadFrom line.now) }
    ensures first { IfErr result (λ bad. IsFirstBad adjust_layout line.now bad.field) }
{
    let Some(nsr) = read_nsr(&line[..9]) else {
        return Err(BadLine { field: 1 });
    };
    let Some(before) = Stamp::read(&line[10..34]) else {
        return Err(BadLine { field: 3 });
    };
    let Some(after) = Stamp::read(&line[34..58]) else {
        return Err(BadLine { field: 4 });
    };
    let Some(resp) = read_cpf::<11>(&line[58..69]) else {
        return Err(BadLine { field: 5 });
    };
    if !ends_in_checksum(line, 69) {
        return Err(BadLine { field: 6 });
    }
    Ok(ReadLine {
        nsr,
        body: Body::Adjust {
            before,
            after,
            resp,
        },
        hash: None,
        notes: Notes::NONE,
    })
}

fn read_worker(line: &[u8]) -> Result<ReadLine, BadLine>
    requires { IsLaidOut worker_layout line.now }
    ensures found { IfOk result (IsReadFrom line.now) }
    ensures first { IfErr result (λ bad. IsFirstBad worker_layout line.now bad.field) }
{
    let Some(nsr) = read_nsr(&line[..9]) else {
        return Err(BadLine { field: 1 });
    };
    let Some(at) = Stamp::read(&line[10..34]) else {
        return Err(BadLine { field: 3 });
    };
    let Some(op) = read_op(&line[34..35]) else {
        return Err(BadLine { field: 4 });
    };
    let Some(cpf) = read_cpf::<12>(&line[35..47]) else {
        return Err(BadLine { field: 5 });
    };
    let Some(name) = read_text::<52>(&line[47..99]) else {
        return Err(BadLine { field: 6 });
    };
    let Some(extra) = read_text::<4>(&line[99..103]) else {
        return Err(BadLine { field: 7 });
    };
    let Some(resp) = read_cpf::<11>(&line[103..114]) else {
        return Err(BadLine { field: 8 });
    };
    if !ends_in_checksum(line, 114) {
        return Err(BadLine { field: 9 });
    }
    Ok(ReadLine {
        nsr,
        body: Body::Worker {
            at,
            op,
            cpf,
            name,
            extra,
            resp,
        },
        hash: None,
        notes: Notes::NONE,
    })
}

fn read_employer(line: &[u8]) -> Result<ReadLine, BadLine>
    requires { IsLaidOut employer_layout line.now }
    ensures found { IfOk result (IsReadFrom line.now) }
    ensures first { IfErr result (λ bad. IsFirstBad employer_layout line.now bad.field) }
{
    let Some(nsr) = read_nsr(&line[..9]) else {
        return Err(BadLine { field: 1 });
    };
    let Some(at) = Stamp::read(&line[10..34]) else {
        return Err(BadLine { field: 3 });
    };
    let Some(resp) = read_cpf::<14>(&line[34..48]) else {
        return Err(BadLine { field: 4 });
    };
    if !is_employer_kind(&line[48..49]) {
        return Err(BadLine { field: 5 });
    }
    let Some(id) = read_id(&line[48..63]) else {
        return Err(BadLine { field: 6 });
    };
    let Some(cno) = read_cno(&line[63..77]) else {
        return Err(BadLine { field: 7 });
    };
    let Some(name) = read_text::<150>(&line[77..227]) else {
        return Err(BadLine { field: 8 });
    };
    let Some(place) = read_text::<100>(&line[227..327]) else {
        return Err(BadLine { field: 9 });
    };
    if !ends_in_checksum(line, 327) {
        return Err(BadLine { field: 10 });
    }
    Ok(ReadLine {
        nsr,
        body: Body::Employer {
            at,
            resp,
            id,
            cno,
            name,
            place,
        },
        hash: None,
        notes: Notes::NONE,
    })
}
