ghost use Rattle.std.specs.Prelude.{◌≡◌, ◌≤◌, ◌+◌, ◌++◌, [], ◌∷◌, length, option_copied};
ghost use Rattle.rep_fields.specs.Digits.{numeral};
ghost use Rattle.rep_fields.specs.Employer.{IsEmployerId};
ghost use Rattle.afd_records.specs.Record.{payload_text, op_text, offline_text, HasText, IsCno, IsCollector, IsNsr};
ghost use Rattle.afd_records.specs.Line.{record_text, hash_bytes, HasHash};
ghost use Rattle.afd_records.specs.Checksum.{crc_text};
ghost use Rattle.afd_records.specs.Parts.{payload_len, front_text, employer_rest, worker_rest, clocking_rest};

use crate::checksum::checksum_field;
use crate::line::{AfdLine, CHECKSUM_LEN, CLOCKING_LEN, EMPLOYER_LEN, HASH_LEN, WORKER_LEN};
use crate::record::{Body, Op};
use rep_fields::{Cpf, EmployerId, Row, Stamp, Text};

// The bytes of the fields that each line begins with.
const FRONT_LEN: usize = 34;

// The digits of the line types.
const EMPLOYER: u8 = b'2';

const ADJUST: u8 = b'4';

const WORKER: u8 = b'5';

const EVENT: u8 = b'6';

const CLOCKING: u8 = b'7';

/// The fields of the record with the number `nsr`, before its hash or checksum.
pub fn stem(body: &Body, nsr: u32) -> AfdLine
    requires nsr { IsNsr nsr }
    requires body { HasText body.now }
    ensures { result ≡ payload_text nsr body.now }
{
    AfdLine {
        row: payload(body, nsr),
    }
}

/// The line of the record with the number `nsr`, without its end. A clocking's ends in the hash of 64 lower-case
/// hexadecimal digits, which is given for a clocking alone; an event's has no check; each other line ends in the
/// checksum of what stands before.
pub fn print(body: &Body, nsr: u32, hash: Option<&[u8; 64]>) -> AfdLine
    requires nsr { IsNsr nsr }
    requires body { HasText body.now }
    requires hash { HasHash body.now (option_copied hash) }
    ensures { result ≡ record_text nsr body.now (hash_bytes (option_copied hash.entry)) }
{
    let mut row = payload(body, nsr);
    match body {
        Body::Employer { .. } | Body::Adjust { .. } | Body::Worker { .. } => put_checksum(&mut row),
        Body::Event { .. } => (),
        Body::Clocking { .. } => {
            if let Some(digits) = hash {
                row.push_bytes(digits);
            }
        }
    }
    AfdLine { row }
}

// The fields before the hash or checksum.
#[tactic(auto, unfolding(crate::specs::Record::payload_text))]
fn payload(body: &Body, nsr: u32) -> Row<EMPLOYER_LEN>
    requires nsr { IsNsr nsr }
    requires body { HasText body.now }
    ensures value { result ≡ payload_text nsr body.now }
    ensures len { length result ≡ payload_len body.now }
{
    let mut row = Row::new();
    match body {
        Body::Employer {
            at,
            resp,
            id,
            cno,
            name,
            place,
        } => {
            put_front(&mut row, nsr, EMPLOYER, at);
            put_employer(&mut row, resp, id, *cno, name, place);
        }
        Body::Adjust {
            before,
            after,
            resp,
        } => {
            put_front(&mut row, nsr, ADJUST, before);
            row.push_bytes(&after.write());
            put_cpf(&mut row, 11, resp);
        }
        Body::Worker {
            at,
            op,
            cpf,
            name,
            extra,
            resp,
        } => {
            put_front(&mut row, nsr, WORKER, at);
            put_worker(&mut row, *op, cpf, name, extra, resp);
        }
        Body::Event { at, code } => {
            put_front(&mut row, nsr, EVENT, at);
            row.push_numeral(2, u64::from(*code));
        }
        Body::Clocking {
            marked,
            cpf,
            recorded,
            collector,
            offline,
        } => {
            put_front(&mut row, nsr, CLOCKING, marked);
            put_clocking(&mut row, cpf, recorded, *collector, *offline);
        }
    }
    row
}

fn put_checksum(row: &mut Row<EMPLOYER_LEN>)
    requires { length row.old + CHECKSUM_LEN ≤ EMPLOYER_LEN }
    ensures { row.new ≡ row.old ++ crc_text row.old }
{
    let checksum = checksum_field(row.bytes());
    row.push_bytes(&checksum);
}

// What each line begins with.
fn put_front(row: &mut Row<EMPLOYER_LEN>, nsr: u32, kind: u8, stamp: &Stamp)
    requires empty { row.old ≡ [] }
    requires nsr { IsNsr nsr }
    ensures value { row.new ≡ front_text nsr kind stamp.now }
    ensures len { length row.new ≡ FRONT_LEN }
{
    row.push_numeral(9, u64::from(nsr));
    row.push(kind);
    row.push_bytes(&stamp.write());
}

fn put_cpf(row: &mut Row<EMPLOYER_LEN>, width: usize, cpf: &Cpf)
    requires wide { 11 ≤ width }
    requires width { width ≤ 14 }
    requires room { length row.old + width ≤ EMPLOYER_LEN }
    ensures value { row.new ≡ row.old ++ numeral width cpf.now }
    ensures len { length row.new ≡ length row.old + width }
{
    row.push_numeral(width, cpf.number);
}

fn put_employer(
    row: &mut Row<EMPLOYER_LEN>,
    resp: &Cpf,
    id: &EmployerId,
    cno: u64,
    name: &Text<150>,
    place: &Text<100>,
)
    requires room { length row.old ≡ FRONT_LEN }
    requires id { IsEmployerId id.now }
    requires cno { IsCno cno }
    ensures value { row.new ≡ row.old ++ employer_rest resp.now id.now cno name.now place.now }
    ensures len { length row.new + CHECKSUM_LEN ≡ EMPLOYER_LEN }
{
    put_cpf(row, 14, resp);
    row.push(id.kind());
    row.push_bytes(&id.write());
    row.push_numeral(14, cno);
    row.push_padded(150, name.bytes());
    row.push_padded(100, place.bytes());
}

fn put_worker(
    row: &mut Row<EMPLOYER_LEN>,
    op: Op,
    cpf: &Cpf,
    name: &Text<52>,
    extra: &Text<4>,
    resp: &Cpf,
)
    requires room { length row.old ≡ FRONT_LEN }
    ensures value { row.new ≡ row.old ++ worker_rest op cpf.now name.now extra.now resp.now }
    ensures len { length row.new + CHECKSUM_LEN ≡ WORKER_LEN }
{
    row.push(letter_of(op));
    put_cpf(row, 12, cpf);
    row.push_padded(52, name.bytes());
    row.push_padded(4, extra.bytes());
    put_cpf(row, 11, resp);
}

fn put_clocking(
    row: &mut Row<EMPLOYER_LEN>,
    cpf: &Cpf,
    recorded: &Stamp,
    collector: u8,
    offline: bool,
)
    requires room { length row.old ≡ FRONT_LEN }
    requires collector { IsCollector collector }
    ensures value { row.new ≡ row.old ++ clocking_rest cpf.now recorded.now collector offline }
    ensures len { length row.new + HASH_LEN ≡ CLOCKING_LEN }
{
    put_cpf(row, 12, cpf);
    row.push_bytes(&recorded.write());
    row.push_numeral(2, u64::from(collector));
    row.push(if offline { b'1' } else { b'0' });
}

fn letter_of(op: Op) -> u8
    ensures { op_text op ≡ result ∷ [] }
{
    match op {
        Op::Include => b'I',
        Op::Amend => b'A',
        Op::Exclude => b'E',
    }
}
