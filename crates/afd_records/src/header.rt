ghost use Rattle.std.specs.Prelude.{◌≡◌, ◌+◌, ◌++◌, [], length};
ghost use Rattle.afd_records.specs.File.{head_text, HasHeadText};
ghost use Rattle.afd_records.specs.Parts.{owner_text, period_text};

use crate::checksum::checksum_field;
use crate::line::{CHECKSUM_LEN, filled};
use rep_fields::{Day, EmployerId, RepNumber, Row, Stamp, Text};

/// The bytes of an AFD's first line.
pub const HEAD_LEN: usize = 302;

// The bytes of its first half, up to the recorder's number.
const OWNER_LEN: usize = 206;

/// The first line of an AFD: type 1 of Portaria MTP 671/2021, annex V (`cabeçalho`).
#[derive(Clone, Copy, Debug, PartialEq, Eq)]
pub struct Head {
    /// The employer (`tpIdtEmpregador` and `idtEmpregador`).
    pub id: EmployerId,
    /// The CNO of the works, or the CAEPF, of at most 14 digits; 0 for none (`cnoCaepf`).
    pub cno: u64,
    /// The employer's name (`razaoSocial`).
    pub name: Text<150>,
    /// The recorder's number (`numeroRep`).
    pub rep: RepNumber,
    /// The first day of the records (`dataInicial`).
    pub first: Day,
    /// The last day of the records (`dataFinal`).
    pub last: Day,
    /// When the file was made (`dtHrGeracao`).
    pub made: Stamp,
    /// Whether the recorder's maker has a CNPJ, 1, or a CPF, 2 (`tpIdtDesenv`).
    pub dev_kind: u8,
    /// The maker's CNPJ or CPF in 14 digits (`idtDesenv`), or 14 spaces in a head that was read and names none.
    pub dev: [u8; 14],
    /// The recorder's model (`modeloRep`).
    pub model: Text<30>,
}

/// The line of the head, without its end.
#[tactic(auto, unfolding(crate::specs::File::head_payload_text))]
pub fn print_head(head: &Head) -> [u8; HEAD_LEN]
    requires { HasHeadText head.now }
    ensures { result ≡ head_text head.now }
{
    let mut row = Row::<HEAD_LEN>::new();
    put_owner(&mut row, head);
    put_period(&mut row, head);
    let checksum = checksum_field(row.bytes());
    row.push_bytes(&checksum);
    filled(&row)
}

// Whose records they are.
fn put_owner(row: &mut Row<HEAD_LEN>, head: &Head)
    requires empty { row.old ≡ [] }
    requires head { HasHeadText head.now }
    ensures value { row.new ≡ owner_text head.now }
    ensures len { length row.new ≡ OWNER_LEN }
{
    row.push_bytes(b"0000000001");
    row.push(head.id.kind());
    row.push_bytes(&head.id.write());
    row.push_numeral(14, head.cno);
    row.push_padded(150, head.name.bytes());
    row.push_bytes(head.rep.bytes());
}

// Which days they are of, and which recorder made them.
fn put_period(row: &mut Row<HEAD_LEN>, head: &Head)
    requires room { length row.old ≡ OWNER_LEN }
    requires head { HasHeadText head.now }
    ensures value { row.new ≡ row.old ++ period_text head.now }
    ensures len { length row.new + CHECKSUM_LEN ≡ HEAD_LEN }
{
    row.push_bytes(&head.first.write());
    row.push_bytes(&head.last.write());
    row.push_bytes(&head.made.write());
    row.push_bytes(b"003");
    row.push_numeral(1, u64::from(head.dev_kind));
    row.push_bytes(&head.dev);
    row.push_padded(30, head.model.bytes());
}
