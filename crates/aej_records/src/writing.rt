ghost use Rattle.std.specs.Prelude.{◌≡◌, ℕ, ◌≤◌, ◌+◌, ◌++◌, ◌∷◌, [], length, map, codes, decimal, All, Option, Some, None, IfSome};
ghost use Rattle.rep_fields.specs.Calendar.{IsDay, day_text};
ghost use Rattle.rep_fields.specs.Digits.{numeral};
ghost use Rattle.rep_fields.specs.Employer.{IsEmployerId, kind_byte};
ghost use Rattle.rep_fields.specs.Identity.{bar, cpf_text};
ghost use Rattle.rep_fields.specs.Latin.{IsText};
ghost use Rattle.rep_fields.specs.Moment.{IsMoment, hours_text, moment_text};
ghost use Rattle.aej_records.specs.Grammar.{ReadsAs};
ghost use Rattle.aej_records.specs.Line.{HasText, HasNames, HasNoBars, IsInRange, IsPair, IsCount};
ghost use Rattle.aej_records.specs.Times.{IsTimes};
ghost use Rattle.aej_records.specs.Text.{line_text, owner_text, optional_text, behind_bars, signature_text};

use crate::fields::BAR;
use crate::line::AejLine;
use crate::times::Times;
use rep_fields::{Cpf, Day, EmployerId, RepNumber, Row, Stamp, Text, write_time_of_day};
use rep_io::Piece;

/// No line that is written has more bytes: type 08 with each text at its longest.
pub const LONGEST_WRITTEN: usize = 381;

/// The bytes of the line for the file's signature.
pub const SIGNATURE_LEN: usize = 33;

type LineRow = Row<LONGEST_WRITTEN>;

/// The bytes of a line's type.
const TYPE_LEN: usize = 2;

/// The most bytes of a number of 32 bits with the bar before it.
const NUMBER_LEN: usize = 11;

/// The text of a line, without its end.
///
/// Counts, minutes, and the numbers of employments, recorders and kinds have no zeros in front; the number of a pair has
/// three digits. A line whose last field is empty ends with the separator before it. A line with a bar in a text, or
/// with a text that is empty and may not be, is written all the same, and reads as no line or as another.
pub fn print(line: &AejLine) -> Piece
    requires { HasText line.now }
    ensures text { result ≡ line_text line.now }
    ensures short { length result ≤ LONGEST_WRITTEN }
    ensures reads { HasNames line.now → HasNoBars line.now → ReadsAs result line.now }
{
    match Piece::make(row_of(line).bytes()) {
        Some(piece) => piece,
        None => unreachable!(),
    }
}

// The fields of a line in a row.
#[tactic(auto, unfolding(crate::specs::Text::line_text))]
fn row_of(line: &AejLine) -> LineRow
    requires { HasText line.now }
    ensures text { result ≡ line_text line.now }
    ensures in_range { IsInRange line.now }
{
    let mut row = Row::new();
    match line {
        AejLine::Head {
            id,
            caepf,
            cno,
            name,
            first,
            last,
            made,
        } => {
            row.push_bytes(b"01");
            put_employer(&mut row, id, caepf, cno, name);
            put_period(&mut row, first, last, made);
        }
        AejLine::Rep { id, kind, number } => {
            row.push_bytes(b"02");
            put_number(&mut row, *id);
            put_number(&mut row, u32::from(*kind));
            put_field(&mut row, number.bytes());
        }
        AejLine::Link { id, cpf, name } => {
            row.push_bytes(b"03");
            put_number(&mut row, *id);
            put_field(&mut row, &cpf.write());
            put_field(&mut row, name.bytes());
        }
        AejLine::Schedule {
            code,
            minutes,
            times,
        } => {
            row.push_bytes(b"04");
            put_field(&mut row, code.bytes());
            put_number(&mut row, *minutes);
            put_times(&mut row, times);
        }
        AejLine::Mark {
            link,
            at,
            rep,
            mark,
            pair,
            source,
            schedule,
            reason,
        } => {
            row.push_bytes(b"05");
            put_moment(&mut row, *link, at, *rep, *mark);
            put_origin(&mut row, *pair, *source, schedule, reason);
        }
        AejLine::Registration { link, number } => {
            row.push_bytes(b"06");
            put_number(&mut row, *link);
            put_field(&mut row, number.bytes());
        }
        AejLine::Absence {
            link,
            kind,
            date,
            minutes,
            movement,
        } => {
            row.push_bytes(b"07");
            put_absence(&mut row, *link, *kind, date, *minutes, *movement);
        }
        AejLine::Program {
            name,
            version,
            developer,
            developer_name,
            email,
        } => {
            row.push_bytes(b"08");
            put_program(&mut row, name, version, developer, developer_name, email);
        }
        AejLine::Counts { counts } => {
            row.push_bytes(b"99");
            put_counts(&mut row, counts);
        }
    }
    row
}

// The employer in a head.
fn put_employer(
    row: &mut LineRow,
    id: &EmployerId,
    caepf: &Text<14>,
    cno: &Text<14>,
    name: &Text<150>,
)
    requires room { length row.old ≤ TYPE_LEN }
    requires id { IsEmployerId id.now }
    ensures value { row.new ≡ row.old ++ behind_bars ((kind_byte id.now ∷ []) ∷ owner_text id.now ∷ caepf.now ∷ cno.now
        ∷ name.now ∷ []) }
    ensures caepf { IsText 14 caepf.now }
    ensures cno { IsText 14 cno.now }
    ensures name { IsText 150 name.now }
    ensures len { length row.new ≤ length row.old + 198 }
{
    put_owner(row, id);
    put_field(row, caepf.bytes());
    put_field(row, cno.bytes());
    put_field(row, name.bytes());
}

// The period of a head, when the file was made, and the version of its layout.
fn put_period(row: &mut LineRow, first: &Day, last: &Day, made: &Stamp)
    requires room { length row.old + 51 ≤ LONGEST_WRITTEN }
    ensures value { row.new ≡ row.old ++ behind_bars (day_text first.now ∷ day_text last.now ∷ moment_text made.now ∷ codes "001" ∷ []) }
    ensures first { IsDay first.now }
    ensures last { IsDay last.now }
    ensures made { IsMoment made.now }
{
    put_field(row, &first.write());
    put_field(row, &last.write());
    put_field(row, &made.write());
    put_field(row, b"001");
}

// What a mark is, and when.
fn put_moment(row: &mut LineRow, link: u32, at: &Stamp, rep: Option<u32>, mark: u8)
    requires { length row.old ≤ TYPE_LEN }
    ensures value { row.new ≡ row.old ++ behind_bars (decimal link ∷ moment_text at.now ∷ optional_text decimal rep ∷ (mark ∷ []) ∷ []) }
    ensures len { length row.new ≤ length row.old + 49 }
    ensures at { IsMoment at.now }
{
    put_number(row, link);
    put_field(row, &at.write());
    put_optional(row, rep);
    put_letter(row, mark);
}

// Where a mark belongs, and where it comes from.
fn put_origin(
    row: &mut LineRow,
    pair: Option<u16>,
    source: u8,
    schedule: &Text<30>,
    reason: &Text<150>,
)
    requires room { length row.old + 188 ≤ LONGEST_WRITTEN }
    requires pair { IfSome pair IsPair }
    ensures value { row.new ≡ row.old ++ behind_bars (optional_text (numeral 3) pair ∷ (source ∷ []) ∷ schedule.now ∷ reason.now ∷ []) }
    ensures schedule { IsText 30 schedule.now }
    ensures reason { IsText 150 reason.now }
{
    put_pair(row, pair);
    put_letter(row, source);
    put_field(row, schedule.bytes());
    put_field(row, reason.bytes());
}

fn put_absence(
    row: &mut LineRow,
    link: u32,
    kind: u8,
    date: &Day,
    minutes: Option<u32>,
    movement: Option<u8>,
)
    requires { length row.old ≤ TYPE_LEN }
    ensures value { row.new ≡ row.old ++ behind_bars (decimal link ∷ decimal kind ∷ day_text date.now ∷ optional_text decimal minutes ∷ optional_text decimal movement ∷ []) }
    ensures date { IsDay date.now }
{
    put_number(row, link);
    put_number(row, u32::from(kind));
    put_field(row, &date.write());
    put_optional(row, minutes);
    put_optional(row, movement.map(u32::from));
}

fn put_program(
    row: &mut LineRow,
    name: &Text<150>,
    version: &Text<8>,
    developer: &EmployerId,
    developer_name: &Text<150>,
    email: &Text<50>,
)
    requires room { length row.old ≤ TYPE_LEN }
    requires developer { IsEmployerId developer.now }
    ensures value { row.new ≡ row.old ++ behind_bars (name.now ∷ version.now ∷ (kind_byte developer.now ∷ [])
        ∷ owner_text developer.now ∷ developer_name.now ∷ email.now ∷ []) }
    ensures name { IsText 150 name.now }
    ensures version { IsText 8 version.now }
    ensures developer_name { IsText 150 developer_name.now }
    ensures email { IsText 50 email.now }
{
    put_field(row, name.bytes());
    put_field(row, version.bytes());
    put_owner(row, developer);
    put_field(row, developer_name.bytes());
    put_field(row, email.bytes());
}

// The kind of an id, and its 14 or 11 digits.
fn put_owner(row: &mut LineRow, id: &EmployerId)
    requires room { length row.old + 17 ≤ LONGEST_WRITTEN }
    requires id { IsEmployerId id.now }
    ensures value { row.new ≡ row.old ++ behind_bars ((kind_byte id.now ∷ []) ∷ owner_text id.now ∷ []) }
    ensures len { length row.new ≤ length row.old + 17 }
{
    put_letter(row, id.kind());
    match id {
        EmployerId::Cnpj(_) => put_field(row, &id.write()),
        EmployerId::Person(cpf) => put_field(row, &cpf.write()),
    }
}

fn put_times(row: &mut LineRow, times: &Times)
    requires { length row.old + 100 ≤ LONGEST_WRITTEN }
    ensures value { row.new ≡ row.old ++ behind_bars (map hours_text times.now) }
    ensures times { IsTimes times.now }
{
    for minute in times.minutes() {
        put_field(row, &write_time_of_day(*minute));
    }
}

fn put_counts(row: &mut LineRow, counts: &[u32; 8])
    requires { length row.old ≤ TYPE_LEN }
    ensures value { row.new ≡ row.old ++ behind_bars (map decimal counts.now) }
    ensures all { length counts.now ≡ 8 }
{
    for count in counts {
        put_number(row, *count);
    }
}

// The number of a pair in three digits, where there is one.
fn put_pair(row: &mut LineRow, pair: Option<u16>)
    requires room { length row.old + 4 ≤ LONGEST_WRITTEN }
    requires pair { IfSome pair IsPair }
    ensures value { row.new ≡ row.old ++ bar ∷ optional_text (numeral 3) pair }
    ensures len { length row.new ≤ length row.old + 4 }
{
    row.push(BAR);
    if let Some(number) = pair {
        row.push_numeral(3, u64::from(number));
    }
}

// A number, where there is one.
fn put_optional(row: &mut LineRow, value: Option<u32>)
    requires { length row.old + NUMBER_LEN ≤ LONGEST_WRITTEN }
    ensures value { row.new ≡ row.old ++ bar ∷ optional_text decimal value }
    ensures len { length row.new ≤ length row.old + NUMBER_LEN }
{
    match value {
        Some(number) => put_number(row, number),
        None => row.push(BAR),
    }
}

// A number with the bar before it.
#[tactic(auto, using(crate::proofs::WritingLemmas::length_decimal))]
fn put_number(row: &mut LineRow, value: u32)
    requires { length row.old + NUMBER_LEN ≤ LONGEST_WRITTEN }
    ensures value { row.new ≡ row.old ++ bar ∷ decimal value }
    ensures len { length row.new ≤ length row.old + NUMBER_LEN }
{
    row.push(BAR);
    row.push_decimal(u64::from(value));
}

fn put_letter(row: &mut LineRow, letter: u8)
    requires { length row.old + 2 ≤ LONGEST_WRITTEN }
    ensures value { row.new ≡ row.old ++ bar ∷ letter ∷ [] }
    ensures len { length row.new ≡ length row.old + 2 }
{
    row.push(BAR);
    row.push(letter);
}

// A field with the bar before it.
fn put_field(row: &mut LineRow, text: &[u8])
    requires { length row.old + 1 + length text.now ≤ LONGEST_WRITTEN }
    ensures value { row.new ≡ row.old ++ bar ∷ text.now }
    ensures len { length row.new ≡ length row.old + 1 + length text.now }
{
    row.push(BAR);
    row.push_bytes(text);
}

/// The line behind the last one of a file, where its signature belongs, without its end. Unlike that of an AFD it isn't
/// filled with spaces.
pub fn signature() -> [u8; SIGNATURE_LEN]
    ensures { result ≡ signature_text }
{
    *b"ASSINATURA_DIGITAL_EM_ARQUIVO_P7S"
}
