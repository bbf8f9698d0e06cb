//! Lines of a receipt.
ghost use Rattle.std.specs.Prelude.{◌≡◌, ◌+◌, ◌≤◌, ◌++◌, ◌∷◌, [], codes, length};
ghost use Rattle.std.specs.List.{concat};
ghost use Rattle.rep_fields.specs.Digits.{numeral};
ghost use Rattle.rep_fields.specs.Employer.{IsEmployerId};
ghost use Rattle.rep_fields.specs.Identity.{cpf_text};
ghost use Rattle.rep_fields.specs.Moment.{moment_text};
ghost use Rattle.afd_records.specs.Record.{IsNsr};
ghost use Rattle.rep_receipt.specs.Receipt.{id_digits, number_lines, receipt_line, title_line};

use rep_fields::{Cpf, EmployerId, RepNumber, Row, Stamp, Text};

/// The lines in front of the worker's name, or those behind it, have no more bytes.
const ROOM: usize = 512;

/// Lines of a receipt.
pub(crate) type Rows = Row<ROOM>;

/// The title and what is said of the employer.
pub(crate) fn employer_rows(id: &EmployerId, name: &Text<150>, place: &Text<100>) -> Rows
    requires { IsEmployerId id.now }
    ensures { result ≡ concat (title_line ∷ receipt_line (codes "EMPREGADOR") name.now
        ∷ receipt_line (codes "IDENTIFICACAO") (id_digits id.now) ∷ receipt_line (codes "LOCAL") place.now ∷ []) }
{
    let mut rows = Row::new();
    rows.push_bytes(b"COMPROVANTE DE REGISTRO DE PONTO DO TRABALHADOR\n");
    push_line(&mut rows, b"EMPREGADOR", name.bytes());
    push_id(&mut rows, id);
    push_line(&mut rows, b"LOCAL", place.bytes());
    rows
}

/// What is said of the clocking.
pub(crate) fn clocking_rows(
    cpf: &Cpf,
    marked: &Stamp,
    nsr: u32,
    rep: &RepNumber,
    hash: &[u8; 64],
) -> Rows
    requires { IsNsr nsr }
    ensures { result ≡ concat ((receipt_line (codes "CPF") (cpf_text cpf.now)
        ∷ receipt_line (codes "DATA E HORA") (moment_text marked.now) ∷ []) ++ number_lines nsr rep.now hash.now) }
{
    let mut rows = Row::new();
    push_line(&mut rows, b"CPF", &cpf.write());
    push_line(&mut rows, b"DATA E HORA", &marked.write());
    push_number(&mut rows, nsr);
    push_line(&mut rows, b"INPI", rep.bytes());
    push_line(&mut rows, b"HASH", hash);
    rows
}

// Appends a line.
fn push_line(rows: &mut Rows, name: &[u8], value: &[u8])
    requires { length rows.old + length name.now + length value.now + 3 ≤ ROOM }
    ensures value { rows.new ≡ rows.old ++ receipt_line name.now value.now }
    ensures len { length rows.new ≡ length rows.old + length name.now + length value.now + 3 }
{
    rows.push_bytes(name);
    rows.push_bytes(b": ");
    rows.push_bytes(value);
    rows.push(b'\n');
}

// Appends the line of the employer's id.
fn push_id(rows: &mut Rows, id: &EmployerId)
    requires id { IsEmployerId id.now }
    requires room { length rows.old + 30 ≤ ROOM }
    ensures value { rows.new ≡ rows.old ++ receipt_line (codes "IDENTIFICACAO") (id_digits id.now) }
    ensures len { length rows.new ≤ length rows.old + 30 }
{
    match id {
        EmployerId::Cnpj(_) => push_line(rows, b"IDENTIFICACAO", &id.write()),
        EmployerId::Person(cpf) => push_line(rows, b"IDENTIFICACAO", &cpf.write()),
    }
}

// Appends the line of the clocking's number.
fn push_number(rows: &mut Rows, nsr: u32)
    requires nsr { IsNsr nsr }
    requires room { length rows.old + 15 ≤ ROOM }
    ensures value { rows.new ≡ rows.old ++ receipt_line (codes "NSR") (numeral 9 nsr) }
    ensures len { length rows.new ≡ length rows.old + 15 }
{
    let mut digits = Row::<9>::new();
    digits.push_numeral(9, u64::from(nsr));
    push_line(rows, b"NSR", digits.bytes());
}
