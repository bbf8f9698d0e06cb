ghost use Rattle.std.specs.Prelude.{◌≡◌, ◌+◌, ◌≤◌, ◌∷◌, ◌++◌, [], length, codes, decimal};
ghost use Rattle.rep_wire.specs.Reply.{code_text, marked_text, hash_text, answer_text, answer_letter, reply_text, extract_text};

use crate::reply::{Answer, Code, Reply, Slip};
use rep_fields::{Row, Stamp};
use rep_io::Piece;

/// No line of a reply is longer.
const LONGEST_REPLY: usize = 208;

/// The most bytes that a number takes with the bar before it.
const NUMBER_LEN: usize = 21;

/// The most bytes before an answer: a letter, two numbers and the bar behind them.
const HEAD_LEN: usize = 44;

/// The most bytes of an answer: a number, two stamps, a hash and three bars.
const ANSWER_LEN: usize = 135;

/// How many bytes a stamp has.
const STAMP_LEN: usize = 24;

/// How many bytes a hash has.
const HASH_LEN: usize = 64;

/// Stands between two fields.
const BAR: u8 = b'|';

/// Ends a line.
const LINE_END: u8 = b'\n';

/// The reply to a line of a lane file, whose number and sequence number these are.
pub fn reply_line(line: u64, seq: u64, reply: &Reply) -> Piece
    ensures { result ≡ reply_text line seq reply.now }
{
    let mut row = Row::<LONGEST_REPLY>::new();
    push_head(&mut row, letter_of(&reply.answer), line, seq);
    row.push(BAR);
    push_answer(&mut row, &reply.answer);
    push_end(&mut row, reply.front);
    piece_of(&row)
}

/// The line before the bytes of an AFD, in reply to an extraction.
pub fn extract_line(line: u64, seq: u64, bytes: u64, front: u32) -> Piece
    ensures { result ≡ extract_text line seq bytes front }
{
    let mut row = Row::<LONGEST_REPLY>::new();
    push_head(&mut row, b'F', line, seq);
    push_number(&mut row, bytes);
    push_end(&mut row, front);
    piece_of(&row)
}

// `R` for a receipt, `N` for a refusal.
fn letter_of(answer: &Answer) -> u8
    ensures { result ∷ [] ≡ answer_letter answer.now }
{
    match answer {
        Answer::Receipt(_) => b'R',
        Answer::Refused(_) => b'N',
    }
}

// The letter and the request's two numbers.
fn push_head(row: &mut Row<LONGEST_REPLY>, letter: u8, line: u64, seq: u64)
    requires { row.old ≡ [] }
    ensures value { row.new ≡ letter ∷ codes "|" ++ decimal line ++ codes "|" ++ decimal seq }
    ensures len { length row.new + 1 ≤ HEAD_LEN }
{
    row.push(letter);
    push_number(row, line);
    push_number(row, seq);
}

// A number with the bar before it.
#[tactic(auto, using(crate::proofs::ReplyLemmas::length_decimal))]
fn push_number(row: &mut Row<LONGEST_REPLY>, value: u64)
    requires { length row.old + NUMBER_LEN ≤ LONGEST_REPLY }
    ensures value { row.new ≡ row.old ++ codes "|" ++ decimal value }
    ensures len { length row.new ≤ length row.old + NUMBER_LEN }
{
    row.push(BAR);
    row.push_decimal(value);
}

// The front and the line's end.
fn push_end(row: &mut Row<LONGEST_REPLY>, front: u32)
    requires { length row.old + NUMBER_LEN + 1 ≤ LONGEST_REPLY }
    ensures { row.new ≡ row.old ++ codes "|" ++ decimal front ++ codes "\n" }
{
    push_number(row, u64::from(front));
    row.push(LINE_END);
}

// The fields of a receipt or a refusal.
fn push_answer(row: &mut Row<LONGEST_REPLY>, answer: &Answer)
    requires { length row.old ≤ HEAD_LEN }
    ensures value { row.new ≡ row.old ++ answer_text answer.now }
    ensures len { length row.new ≤ length row.old + ANSWER_LEN }
{
    match answer {
        Answer::Receipt(slip) => push_receipt(row, slip),
        Answer::Refused(code) => row.push_bytes(digits_of(code)),
    }
}

// The two digits of a code.
fn digits_of(code: &Code) -> &'static [u8]
    ensures value { result.now ≡ code_text code.now }
    ensures len { length result.now ≡ 2 }
{
    match code {
        Code::Malformed { field: _ } => b"01",
        Code::Unregistered => b"02",
        Code::Conflict { nsr: _ } => b"03",
        Code::Exhausted => b"04",
        Code::LinkLost => b"08",
    }
}

#[tactic(auto, using(crate::proofs::ReplyLemmas::length_decimal))]
fn push_receipt(row: &mut Row<LONGEST_REPLY>, slip: &Slip)
    requires { length row.old ≤ HEAD_LEN }
    ensures value { row.new ≡ row.old ++ answer_text (Answer.Receipt slip.now) }
    ensures len { length row.new ≤ length row.old + ANSWER_LEN }
{
    row.push_decimal(u64::from(slip.nsr));
    row.push(BAR);
    push_marked(row, slip.marked);
    row.push(BAR);
    row.push_bytes(&slip.recorded.write());
    row.push(BAR);
    push_hash(row, &slip.hash);
}

// The stamp, where there is one.
fn push_marked(row: &mut Row<LONGEST_REPLY>, marked: Option<Stamp>)
    requires { length row.old + STAMP_LEN ≤ LONGEST_REPLY }
    ensures value { row.new ≡ row.old ++ marked_text marked }
    ensures len { length row.new ≤ length row.old + STAMP_LEN }
{
    if let Some(stamp) = marked {
        row.push_bytes(&stamp.write());
    }
}

// The hash, where there is one.
fn push_hash(row: &mut Row<LONGEST_REPLY>, hash: &Option<[u8; HASH_LEN]>)
    requires { length row.old + HASH_LEN ≤ LONGEST_REPLY }
    ensures value { row.new ≡ row.old ++ hash_text hash.now }
    ensures len { length row.new ≤ length row.old + HASH_LEN }
{
    if let Some(hash) = hash {
        row.push_bytes(hash);
    }
}

fn piece_of(row: &Row<LONGEST_REPLY>) -> Piece
    ensures { result ≡ row.now }
{
    match Piece::make(row.bytes()) {
        Some(piece) => piece,
        None => unreachable!(),
    }
}
