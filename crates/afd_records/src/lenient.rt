ghost use Rattle.std.specs.Prelude.{◌≡◌, ◌∷◌, ℕ, ◌≤◌, Option, List, length, take, drop, IfOk, IfErr};
ghost use Rattle.afd_records.specs.Fields.{Layout, IsLaidOut, employer_layout, adjust_layout, worker_layout, event_layout, clocking_layout};
ghost use Rattle.afd_records.specs.Lenient.{IsLooseLineOf, IsLooselyReadFrom, IsFirstLooseBad};
ghost use Rattle.afd_records.specs.Line.{IsLineOf};
ghost use Rattle.afd_records.specs.Reading.{no_notes};
ghost use Rattle.afd_records.specs.declared.error.Notes.{Notes as TheNotes};
ghost use Rattle.afd_records.specs.declared.record.Body.{Body as TheBody};

use crate::checksum::ends_in_checksum;
use crate::error::{BadLine, Notes};
use crate::fields::{
    is_employer_kind, read_collector, read_cpf, read_id, read_nsr, read_offline, read_op, read_text,
};
use crate::line::{ADJUST_LEN, CLOCKING_LEN, EMPLOYER_LEN, EVENT_LEN, WORKER_LEN};
use crate::loose_fields::{
    read_loose_cno, read_loose_event, read_loose_hash, read_stamp, read_stamp_again,
};
use crate::reading::{ReadLine, TYPE_AT};
use crate::record::Body;

/// Reads the line of a record, without its end, as [`read`](crate::read) does, and passes over more: any seconds and
/// the offset `-0000` in a stamp, and any checksum, each with a note; and without a note a blank CNO or CAEPF, the
/// event codes 01 to 08, and a hash of digits of either case, which is answered as it stands. A line of `print` has its
/// own values and no note.
///
/// # Errors
///
/// `BadLine` exactly where the line is none that may be read so. Its `field` is 0 where the line's type or length isn't
/// in the table of Portaria MTP 671/2021, annex V, else the number of the first field that is off its grammar.
pub fn read_loose(line: &[u8]) -> Result<ReadLine, BadLine>
    ensures found { IfOk result (IsLooselyReadFrom line.now) }
    ensures only { (nsr : ℕ) → (body : TheBody) → (hash : Option (List ℕ)) → (notes : TheNotes)
        → IsLooseLineOf nsr body hash notes line.now
        → result ≡ Ok (record { nsr = nsr; body = body; hash = hash; notes = notes }) }
    ensures printed { (nsr : ℕ) → (body : TheBody) → (hash : Option (List ℕ)) → IsLineOf nsr body hash line.now
        → result ≡ Ok (record { nsr = nsr; body = body; hash = hash; notes = no_notes }) }
    ensures unknown { ((layout : Layout) → IsLaidOut layout line.now → ⊥) → result ≡ Err (record { field = 0 }) }
    ensures first { (layout : Layout) → IsLaidOut layout line.now
        → IfErr result (λ bad. IsFirstLooseBad layout line.now bad.field) }
{
    read_loose_by_type(line)
}

// Reads by the layout of the line's type, field by field; the places are those of the annex's table.
fn read_loose_by_type(line: &[u8]) -> Result<ReadLine, BadLine>
    ensures found { IfOk result (IsLooselyReadFrom line.now) }
    ensures unknown { ((layout : Layout) → IsLaidOut layout line.now → ⊥) → result ≡ Err (record { field = 0 }) }
    ensures first { (layout : Layout) → IsLaidOut layout line.now
        → IfErr result (λ bad. IsFirstLooseBad layout line.now bad.field) }
{
    if line.len() <= TYPE_AT {
        return Err(BadLine { field: 0 });
    }
    match (line[TYPE_AT], line.len()) {
        (b'2', EMPLOYER_LEN) => read_loose_employer(line),
        (b'4', ADJUST_LEN) => read_loose_adjust(line),
        (b'5', WORKER_LEN) => read_loose_worker(line),
        (b'6', EVENT_LEN) => read_loose_event_line(line),
        (b'7', CLOCKING_LEN) => read_loose_clocking(line),
        _ => Err(BadLine { field: 0 }),
    }
}

fn read_loose_event_line(line: &[u8]) -> Result<ReadLine, BadLine>
    requires { IsLaidOut event_layout line.now }
    ensures found { IfOk result (IsLooselyReadFrom line.now) }
    ensures first { IfErr result (λ bad. IsFirstLooseBad event_layout line.now bad.field) }
{
    let Some(nsr) = read_nsr(&line[..9]) else {
        return Err(BadLine { field: 1 });
    };
    let Some(at) = read_stamp(&line[10..34]) else {
        return Err(BadLine { field: 3 });
    };
    let Some(code) = read_loose_event(&line[34..36]) else {
        return Err(BadLine { field: 4 });
    };
    Ok(ReadLine {
        nsr,
        body: Body::Event { at: at.stamp, code },
        hash: None,
        notes: Notes {
            crc: false,
            stamp: at.odd,
            rep: false,
        },
    })
}

fn read_loose_clocking(line: &[u8]) -> Result<ReadLine, BadLine>
    requires { IsLaidOut clocking_layout line.now }
    ensures found { IfOk result (IsLooselyReadFrom line.now) }
    ensures first { IfErr result (λ bad. IsFirstLooseBad clocking_layout line.now bad.field) }
{
    let Some(nsr) = read_nsr(&line[..9]) else {
        return Err(BadLine { field: 1 });
    };
    let Some(marked) = read_stamp(&line[10..34]) else {
        return Err(BadLine { field: 3 });
    };
    let Some(cpf) = read_cpf::<12>(&line[34..46]) else {
        return Err(BadLine { field: 4 });
    };
    let Some(recorded) = read_stamp_again(&line[46..70], &line[10..34], &marked) else {
        return Err(BadLine { field: 5 });
    };
    let Some(collector) = read_collector(&line[70..72]) else {
        return Err(BadLine { field: 6 });
    };
    let Some(offline) = read_offline(&line[72..73]) else {
        return Err(BadLine { field: 7 });
    };
    let Some(hash) = read_loose_hash(&line[73..137]) else {
        return Err(BadLine { field: 8 });
    };
    Ok(ReadLine {
        nsr,
        body: Body::Clocking {
            marked: marked.stamp,
            cpf,
            recorded: recorded.stamp,
            collector,
            offline,
        },
        hash: Some(hash),
        notes: Notes {
            crc: false,
            stamp: marked.odd | recorded.odd,
            rep: false,
        },
    })
}

fn read_loose_adjust(line: &[u8]) -> Result<ReadLine, BadLine>
    requires { IsLaidOut adjust_layout line.now }
    ensures found { IfOk result (IsLooselyReadFrom line.now) }
    ensures first { IfErr result (λ bad. IsFirstLooseBad adjust_layout line.now bad.field) }
{
    let Some(nsr) = read_nsr(&line[..9]) else {
        return Err(BadLine { field: 1 });
    };
    let Some(before) = read_stamp(&line[10..34]) else {
        return Err(BadLine { field: 3 });
    };
    let Some(after) = read_stamp(&line[34..58]) else {
        return Err(BadLine { field: 4 });
    };
    let Some(resp) = read_cpf::<11>(&line[58..69]) else {
        return Err(BadLine { field: 5 });
    };
    Ok(ReadLine {
        nsr,
        body: Body::Adjust {
            before: before.stamp,
            after: after.stamp,
            resp,
        },
        hash: None,
        notes: Notes {
            crc: !ends_in_checksum(line, 69),
            stamp: before.odd | after.odd,
            rep: false,
        },
    })
}

fn read_loose_worker(line: &[u8]) -> Result<ReadLine, BadLine>
    requires { IsLaidOut worker_layout line.now }
    ensures found { IfOk result (IsLooselyReadFrom line.now) }
    ensures first { IfErr result (λ bad. IsFirstLooseBad worker_layout line.now bad.field) }
{
    let Some(nsr) = read_nsr(&line[..9]) else {
        return Err(BadLine { field: 1 });
    };
    let Some(at) = read_stamp(&line[10..34]) else {
        return Err(BadLine { field: 3 });
    };
    let Some(op) = read_op(&line[34..35]) else {
        return Err(BadLine { field: 4 });
    };
    let Some(cpf) = read_cpf::<12>(&line[35..47]) else {
        return Err(BadLine { field: 5 });
    };
    let Some(name) = read_text::<52>(&line[47..99]) else {
        return Err(BadLine { field: 6 });
    };
    let Some(extra) = read_text::<4>(&line[99..103]) else {
        return Err(BadLine { field: 7 });
    };
    let Some(resp) = read_cpf::<11>(&line[103..114]) else {
        return Err(BadLine { field: 8 });
    };
    Ok(ReadLine {
        nsr,
        body: Body::Worker {
            at: at.stamp,
            op,
            cpf,
            name,
            extra,
            resp,
        },
        hash: None,
        notes: Notes {
            crc: !ends_in_checksum(line, 114),
            stamp: at.odd,
            rep: false,
        },
    })
}

fn read_loose_employer(line: &[u8]) -> Result<ReadLine, BadLine>
    requires { IsLaidOut employer_layout line.now }
    ensures found { IfOk result (IsLooselyReadFrom line.now) }
    ensures first { IfErr result (λ bad. IsFirstLooseBad employer_layout line.now bad.field) }
{
    let Some(nsr) = read_nsr(&line[..9]) else {
        return Err(BadLine { field: 1 });
    };
    let Some(at) = read_stamp(&line[10..34]) else {
        return Err(BadLine { field: 3 });
    };
    let Some(resp) = read_cpf::<14>(&line[34..48]) else {
        return Err(BadLine { field: 4 });
    };
    if !is_employer_kind(&line[48..49]) {
        return Err(BadLine { field: 5 });
    }
    let Some(id) = read_id(&line[48..63]) else {
        return Err(BadLine { field: 6 });
    };
    let Some(cno) = read_loose_cno(&line[63..77]) else {
        return Err(BadLine { field: 7 });
    };
    let Some(name) = read_text::<150>(&line[77..227]) else {
        return Err(BadLine { field: 8 });
    };
    let Some(place) = read_text::<100>(&line[227..327]) else {
        return Err(BadLine { field: 9 });
    };
    Ok(ReadLine {
        nsr,
        body: Body::Employer {
            at: at.stamp,
            resp,
            id,
            cno,
            name,
            place,
        },
        hash: None,
        notes: Notes {
            crc: !ends_in_checksum(line, 327),
            stamp: at.odd,
            rep: false,
        },
    })
}
