ghost use Rattle.std.specs.Prelude.{◌≡◌, ◌↔◌, length, IfOk, IfErr, IsTrue, All};
ghost use Rattle.rep_fields.specs.Decoding.{Decodes};
ghost use Rattle.rep_fields.specs.Digits.{numeral, IsDigitByte};
ghost use Rattle.afd_records.specs.File.{head_text, HasHeadText};
ghost use Rattle.afd_records.specs.LenientHead.{IsHeadLaidOut, IsLooseHead, IsLooseHeadOf, IsPrintedHead, IsFirstBadOfHead, IsMakerKind, IsMaker};
ghost use Rattle.afd_records.specs.HeadParts.{IsOwnerIn};
ghost use Rattle.afd_records.specs.declared.error.Notes.{Notes as TheNotes};
ghost use Rattle.afd_records.specs.declared.header.Head.{Head as TheHead};

use crate::checksum::ends_in_checksum;
use crate::error::{BadLine, Notes};
use crate::fields::{is_employer_kind, read_id, read_text};
use crate::header::{HEAD_LEN, Head};
use crate::loose_fields::{is_literal, read_loose_cno, read_stamp};
use crate::reading::TYPE_AT;
use rep_fields::{Day, EmployerId, RepNumber, Text, get_n};

// The digit of the head's type.
const HEAD_TYPE: u8 = b'1';

// What a head begins with, in place of a record's number.
const ZEROS: &[u8; 9] = b"000000000";

// The version of the layout.
const VERSION: &[u8; 3] = b"003";

// A maker's id that is absent.
const BLANK_MAKER: &[u8; 14] = b"              ";

/// A head that was read.
#[derive(Clone, Copy, Debug, PartialEq, Eq)]
pub struct ReadHead {
    /// The head. Where it names no maker, `dev` is 14 spaces, and `print_head` doesn't take it.
    pub head: Head,
    /// What is told of the line beside its values.
    pub notes: Notes,
}

/// Reads the head of an AFD, its first line, without its end. It passes over any seconds and the offset `-0000` in the
/// stamp, any checksum, and a recorder's number that isn't all digits, each with a note; and without a note a blank CNO
/// or CAEPF and a blank maker's id. A line of `print_head` has its own head, and no note but of the recorder's number.
///
/// # Errors
///
/// `BadLine` exactly where the line is no head. Its `field` is 0 where the tenth byte isn't `1` or the line hasn't 302
/// bytes, else the number of the first field that is off its grammar.
pub fn read_head(line: &[u8]) -> Result<ReadHead, BadLine>
    ensures found { IfOk result (λ read. IsLooseHeadOf read.head read.notes line.now) }
    ensures only { (head : TheHead) → (notes : TheNotes) → IsLooseHeadOf head notes line.now
        → result ≡ Ok (record { head = head; notes = notes }) }
    ensures printed { (head : TheHead) → IsLooseHead head → HasHeadText head → line.now ≡ head_text head
        → IsPrintedHead head result }
    ensures unknown { (IsHeadLaidOut line.now → ⊥) → result ≡ Err (record { field = 0 }) }
    ensures first { IsHeadLaidOut line.now → IfErr result (λ bad. IsFirstBadOfHead line.now bad.field) }
{
    read_laid_out(line)
}

// Reads in two parts; the places are those of the annex's table.
fn read_laid_out(line: &[u8]) -> Result<ReadHead, BadLine>
    ensures found { IfOk result (λ read. IsLooseHeadOf read.head read.notes line.now) }
    ensures unknown { (IsHeadLaidOut line.now → ⊥) → result ≡ Err (record { field = 0 }) }
    ensures first { IsHeadLaidOut line.now → IfErr result (λ bad. IsFirstBadOfHead line.now bad.field) }
{
    if line.len() != HEAD_LEN || line[TYPE_AT] != HEAD_TYPE {
        return Err(BadLine { field: 0 });
    }
    let owner = match read_owner(line) {
        Ok(owner) => owner,
        Err(bad) => return Err(bad),
    };
    read_behind(line, &owner)
}

// Whose records they are, and the recorder's number.
#[derive(Drop)]
struct Owner {
    id: EmployerId,
    cno: u64,
    name: Text<150>,
    rep: RepNumber,
}

fn read_owner(line: &[u8]) -> Result<Owner, BadLine>
    requires { IsHeadLaidOut line.now }
    ensures found { IfOk result (IsOwnerIn line.now) }
    ensures first { IfErr result (λ bad. IsFirstBadOfHead line.now bad.field) }
{
    if !is_literal(&line[..9], ZEROS) {
        return Err(BadLine { field: 1 });
    }
    if !is_employer_kind(&line[10..11]) {
        return Err(BadLine { field: 3 });
    }
    let Some(id) = read_id(&line[10..25]) else {
        return Err(BadLine { field: 4 });
    };
    let Some(cno) = read_loose_cno(&line[25..39]) else {
        return Err(BadLine { field: 5 });
    };
    let Some(name) = read_text::<150>(&line[39..189]) else {
        return Err(BadLine { field: 6 });
    };
    let Some(rep) = RepNumber::read(&line[189..206]) else {
        return Err(BadLine { field: 7 });
    };
    Ok(Owner { id, cno, name, rep })
}

// Reads what stands behind the recorder's number.
fn read_behind(line: &[u8], owner: &Owner) -> Result<ReadHead, BadLine>
    requires laid_out { IsHeadLaidOut line.now }
    requires owner { IsOwnerIn line.now owner.now }
    ensures found { IfOk result (λ read. IsLooseHeadOf read.head read.notes line.now) }
    ensures first { IfErr result (λ bad. IsFirstBadOfHead line.now bad.field) }
{
    let Some(first) = Day::read(&line[206..216]) else {
        return Err(BadLine { field: 8 });
    };
    let Some(last) = Day::read(&line[216..226]) else {
        return Err(BadLine { field: 9 });
    };
    let Some(made) = read_stamp(&line[226..250]) else {
        return Err(BadLine { field: 10 });
    };
    if !is_literal(&line[250..253], VERSION) {
        return Err(BadLine { field: 11 });
    }
    let Some(dev_kind) = read_maker_kind(&line[253..254]) else {
        return Err(BadLine { field: 12 });
    };
    let Some(dev) = read_maker(&line[254..268]) else {
        return Err(BadLine { field: 13 });
    };
    let Some(model) = read_text::<30>(&line[268..298]) else {
        return Err(BadLine { field: 14 });
    };
    Ok(ReadHead {
        head: Head {
            id: owner.id,
            cno: owner.cno,
            name: owner.name,
            rep: owner.rep,
            first,
            last,
            made: made.stamp,
            dev_kind,
            dev,
            model,
        },
        notes: Notes {
            crc: !ends_in_checksum(line, 298),
            stamp: made.odd,
            rep: !owner.rep.is_digits(),
        },
    })
}

// Whether the maker has a CNPJ or a CPF.
fn read_maker_kind(field: &[u8]) -> Option<u8>
    requires { length field.now ≡ 1 }
    ensures { Decodes IsMakerKind (numeral 1) field.now result }
{
    let Some(kind) = get_n(field) else {
        return None;
    };
    if kind != 1 && kind != 2 {
        return None;
    }
    Some(kind as u8)
}

// The maker's id in fourteen digits, or a blank field.
fn read_maker(field: &[u8]) -> Option<[u8; 14]>
    requires { length field.now ≡ 14 }
    ensures { Decodes IsMaker (λ maker. maker) field.now result }
{
    if !all_digits(field) && !is_literal(field, BLANK_MAKER) {
        return None;
    }
    let mut maker = [0; 14];
    maker.copy_from_slice(field);
    Some(maker)
}

// Looks at each byte, so that the loop has no branch.
fn all_digits(bytes: &[u8]) -> bool
    ensures { IsTrue result ↔ All IsDigitByte bytes.now }
{
    let mut all = true;
    for byte in bytes {
        all &= is_digit(*byte);
    }
    all
}

fn is_digit(byte: u8) -> bool
    ensures { IsTrue result ↔ IsDigitByte byte }
{
    matches!(byte, b'0'..=b'9')
}
