//! The table `program`.
ghost use Rattle.std.specs.Prelude.{◌≡◌, IfOk, IfErr};
ghost use Rattle.toml.specs.View.{table_view};
ghost use Rattle.toml_fields.specs.Answering.{IsFirstOff};
ghost use Rattle.tr_plan.specs.Program.{HasProgram, IsProgramOff, IsProgramOf, IsProgramKeySound, program_number, program_looked_at, software_keys, recorder_keys};
ghost use Rattle.tr_plan.specs.ProgramParts.{IsSoftwareOf, IsRecorderOf};

use crate::fields::{digits_or_empty, plain_text_at};
use rep_fields::{EmployerId, Text};
use toml::Table;
use toml_fields::{has_only, id_at, number_at, number_or, offset_at, table_at};

const TABLE: &str = "program";

const KEYS: [&str; 10] = [
    "name",
    "version",
    "developer_kind",
    "developer",
    "developer_name",
    "email",
    "offset",
    "rep_kind",
    "caepf",
    "cno",
];

/// The treatment program, and what its AEJ says of recorder and employer (records 08 and 01 of Portaria MTP 671/2021,
/// annex VI).
#[derive(Clone, Copy, Debug)]
pub struct Program {
    /// The program's name (`nomeProg`), 1 to 150 bytes.
    pub name: Text<150>,
    /// Its version (`versaoProg`), 1 to 8 bytes.
    pub version: Text<8>,
    /// Who made it (`tpIdtDesenv` and `idtDesenv`).
    pub developer: EmployerId,
    /// The maker's name (`razaoNomeDesenv`), 1 to 150 bytes.
    pub developer_name: Text<150>,
    /// The maker's address (`emailDesenv`), 1 to 50 bytes.
    pub email: Text<50>,
    /// How many minutes the clock of the treatment is ahead of UTC, -840 to 840.
    pub offset: i16,
    /// The kind of the recorder: 1 for a REP-C, 2 for a REP-A, 3 for a REP-P.
    pub rep_kind: u8,
    /// The employer's CAEPF, 0 to 14 digits.
    pub caepf: Text<14>,
    /// The CNO of the works, 0 to 14 digits.
    pub cno: Text<14>,
}

/// A key of the table, in the order of their numbers.
#[derive(Clone, Copy, Debug, PartialEq, Eq)]
pub(crate) enum ProgramKey {
    Name,
    Version,
    DeveloperKind,
    Developer,
    DeveloperName,
    Email,
    Offset,
    RepKind,
    Caepf,
    Cno,
    Unknown,
}

impl ProgramKey {
    /// The number by which a fault names the key.
    pub(crate) fn number(&self) -> u8
        ensures { result ≡ program_number self.now }
    {
        match self {
            ProgramKey::Name => 1,
            ProgramKey::Version => 2,
            ProgramKey::DeveloperKind => 3,
            ProgramKey::Developer => 4,
            ProgramKey::DeveloperName => 5,
            ProgramKey::Email => 6,
            ProgramKey::Offset => 7,
            ProgramKey::RepKind => 8,
            ProgramKey::Caepf => 9,
            ProgramKey::Cno => 10,
            ProgramKey::Unknown => 0,
        }
    }
}

// What the keys of the software say.
#[derive(Drop)]
struct Software {
    name: Text<150>,
    version: Text<8>,
    developer: EmployerId,
    developer_name: Text<150>,
    email: Text<50>,
}

// What the keys of the recorder and the employer say.
#[derive(Drop)]
struct Recorder {
    offset: i16,
    rep_kind: u8,
    caepf: Text<14>,
    cno: Text<14>,
}

/// The program that the table says, or the first key that is off.
pub(crate) fn program_of(table: &Table) -> Result<Program, ProgramKey>
    ensures ok { IfOk result (HasProgram (table_view table.now)) }
    ensures off { IfErr result (IsProgramOff (table_view table.now)) }
{
    match table_at(table, TABLE) {
        Some(row) => program_in(row),
        None => Err(ProgramKey::Name),
    }
}

fn program_in(row: &Table) -> Result<Program, ProgramKey>
    ensures ok { IfOk result (IsProgramOf (table_view row.now)) }
    ensures off { IfErr result (IsFirstOff (IsProgramKeySound (table_view row.now)) program_looked_at) }
{
    let software = match software_of(row) {
        Ok(software) => software,
        Err(key) => return Err(key),
    };
    let recorder = match recorder_of(row) {
        Ok(recorder) => recorder,
        Err(key) => return Err(key),
    };
    if !has_only(row, &KEYS) {
        return Err(ProgramKey::Unknown);
    }
    Ok(Program {
        name: software.name,
        version: software.version,
        developer: software.developer,
        developer_name: software.developer_name,
        email: software.email,
        offset: recorder.offset,
        rep_kind: recorder.rep_kind,
        caepf: recorder.caepf,
        cno: recorder.cno,
    })
}

fn software_of(row: &Table) -> Result<Software, ProgramKey>
    ensures ok { IfOk result (IsSoftwareOf (table_view row.now)) }
    ensures off { IfErr result (IsFirstOff (IsProgramKeySound (table_view row.now)) software_keys) }
{
    let Some(name) = plain_text_at(row, "name", 1) else {
        return Err(ProgramKey::Name);
    };
    let Some(version) = plain_text_at(row, "version", 1) else {
        return Err(ProgramKey::Version);
    };
    let Some(kind) = number_at(row, "developer_kind", 1, 2) else {
        return Err(ProgramKey::DeveloperKind);
    };
    let Some(developer) = id_at(row, "developer", kind) else {
        return Err(ProgramKey::Developer);
    };
    let Some(developer_name) = plain_text_at(row, "developer_name", 1) else {
        return Err(ProgramKey::DeveloperName);
    };
    let Some(email) = plain_text_at(row, "email", 1) else {
        return Err(ProgramKey::Email);
    };
    Ok(Software {
        name,
        version,
        developer,
        developer_name,
        email,
    })
}

fn recorder_of(row: &Table) -> Result<Recorder, ProgramKey>
    ensures ok { IfOk result (IsRecorderOf (table_view row.now)) }
    ensures off { IfErr result (IsFirstOff (IsProgramKeySound (table_view row.now)) recorder_keys) }
{
    let Some(offset) = offset_at(row, "offset") else {
        return Err(ProgramKey::Offset);
    };
    let Some(rep_kind) = number_or(row, "rep_kind", 1, 3, 3) else {
        return Err(ProgramKey::RepKind);
    };
    let Some(caepf) = digits_or_empty(row, "caepf") else {
        return Err(ProgramKey::Caepf);
    };
    let Some(cno) = digits_or_empty(row, "cno") else {
        return Err(ProgramKey::Cno);
    };
    Ok(Recorder {
        offset,
        rep_kind: rep_kind as u8,
        caepf,
        cno,
    })
}
