use crate::times::Times;
use rep_fields::{Cpf, Day, EmployerId, RepNumber, Stamp, Text};

/// A line of an AEJ, but the one for the signature: the line types 01 to 08 and 99 of Portaria MTP 671/2021, annex VI.
#[derive(Clone, Copy, Debug, PartialEq, Eq)]
pub enum AejLine {
    /// Type 01: whose file it is (`cabeçalho`).
    Head {
        /// The employer.
        id: EmployerId,
        /// The CAEPF, of at most 14 digits; empty for none.
        caepf: Text<14>,
        /// The CNO of the works, of at most 14 digits; empty for none.
        cno: Text<14>,
        /// The employer's name.
        name: Text<150>,
        /// The first day of the period.
        first: Day,
        /// The last day of the period.
        last: Day,
        /// When the file was made.
        made: Stamp,
    },
    /// Type 02: a recorder whose clockings are treated (`REPs utilizados`).
    Rep {
        /// The number that the file gives to the recorder, 1 to 999,999,999.
        id: u32,
        /// What it is: 1 REP-C, 2 REP-A, 3 REP-P.
        kind: u8,
        /// The number of its registration.
        number: RepNumber,
    },
    /// Type 03: an employment (`vínculos`).
    Link {
        /// The number that the file gives to the employment, 1 to 999,999,999.
        id: u32,
        /// The worker.
        cpf: Cpf,
        /// The worker's name.
        name: Text<150>,
    },
    /// Type 04: a contractual schedule (`horário contratual`).
    Schedule {
        /// What the schedule is called.
        code: Text<30>,
        /// How long its day is, 1 to 1440 minutes.
        minutes: u32,
        /// Entries and exits in turn.
        times: Times,
    },
    /// Type 05: a mark (`marcações`).
    Mark {
        /// The number of the employment.
        link: u32,
        /// The moment of the mark.
        at: Stamp,
        /// The number of the recorder, for a mark that one recorded.
        rep: Option<u32>,
        /// The letter of what it is: `E` entry, `S` exit, `D` disregarded.
        mark: u8,
        /// The number of the pair of entry and exit in its day, 1 to 999.
        pair: Option<u16>,
        /// The letter of where it comes from: `O` an original of a recorder, `I` included by hand, `P` a break stated
        /// beforehand (`intervalo pré-assinalado`), `X` a clocking by exception (`ponto por exceção`), `T` another
        /// source.
        source: u8,
        /// The code of the schedule of the day that the mark begins; empty for none.
        schedule: Text<30>,
        /// Why the mark is included or disregarded; empty for no reason.
        reason: Text<150>,
    },
    /// Type 06: the registration of an employment in eSocial (`matrícula do vínculo no eSocial`).
    Registration {
        /// The number of the employment.
        link: u32,
        /// The registration.
        number: Text<30>,
    },
    /// Type 07: an absence, or a movement of the bank of hours (`ausências e banco de horas`).
    Absence {
        /// The number of the employment.
        link: u32,
        /// What it is: 1 weekly rest, 2 unjustified absence, 3 movement of the bank of hours, 4 day off for a holiday.
        kind: u8,
        /// The day.
        date: Day,
        /// How long, 0 to 99,999 minutes.
        minutes: Option<u32>,
        /// For a movement of the bank of hours: 1 inclusion, 2 compensation.
        movement: Option<u8>,
    },
    /// Type 08: the program that made the file (`identificação do PTRP`).
    Program {
        /// What the program is called.
        name: Text<150>,
        /// Its version.
        version: Text<8>,
        /// Who developed it.
        developer: EmployerId,
        /// The developer's name.
        developer_name: Text<150>,
        /// The developer's e-mail address.
        email: Text<50>,
    },
    /// Type 99: how many lines of each type there are (`trailer`).
    Counts {
        /// The lines of the types 01 to 08, at most 999,999,999 each.
        counts: [u32; 8],
    },
}
