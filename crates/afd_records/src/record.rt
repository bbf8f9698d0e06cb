ghost use Rattle.std.specs.Prelude.{◌≡◌};
ghost use Rattle.afd_records.specs.Record.{recorded_of};

use rep_fields::{Cpf, EmployerId, Stamp, Text};

/// What is done to a worker's registration (`tpOperacao`): the letters `I`, `A` and `E` of the line.
#[derive(Clone, Copy, Debug, PartialEq, Eq)]
pub enum Op {
    /// The worker is registered (`inclusão`).
    Include,
    /// The registration is changed (`alteração`).
    Amend,
    /// The worker is taken out (`exclusão`).
    Exclude,
}

/// A record of the recorder: the line types 2, 4, 5, 6 and 7 of Portaria MTP 671/2021, annex V, without their
/// number, hash and checksum.
#[derive(Clone, Copy, Debug, PartialEq, Eq)]
pub enum Body {
    /// Type 2: the employer was entered or changed (`inclusão ou alteração da identificação da empresa`).
    Employer {
        /// When the recorder took the record (`dtHrGravacao`).
        at: Stamp,
        /// Who entered it (`cpfResponsavel`).
        resp: Cpf,
        /// The employer (`tpIdtEmpregador` and `idtEmpregador`).
        id: EmployerId,
        /// The CNO of the works, or the CAEPF, of at most 14 digits; 0 for none (`cnoCaepf`).
        cno: u64,
        /// The employer's name (`razaoSocial`).
        name: Text<150>,
        /// Where the work is done (`local`).
        place: Text<100>,
    },
    /// Type 4: the clock was adjusted (`ajuste do relógio`).
    Adjust {
        /// What the clock showed before (`dtHrAntesAjuste`).
        before: Stamp,
        /// What it shows since (`dtHrAjustada`), which is also when the recorder took the record.
        after: Stamp,
        /// Who adjusted it (`cpfResponsavel`).
        resp: Cpf,
    },
    /// Type 5: a worker was entered, changed or taken out (`inclusão, alteração ou exclusão de empregado`).
    Worker {
        /// When the recorder took the record (`dtHrGravacao`).
        at: Stamp,
        /// What was done.
        op: Op,
        /// The worker (`cpfEmpregado`).
        cpf: Cpf,
        /// The worker's name (`nomeEmpregado`).
        name: Text<52>,
        /// Further identification of the worker (`demaisDadosIdentificacao`).
        extra: Text<4>,
        /// Who did it (`cpfResponsavel`).
        resp: Cpf,
    },
    /// Type 6: a sensitive event of the recorder (`eventos sensíveis do REP`).
    Event {
        /// When it happened (`dtHrGravacao`).
        at: Stamp,
        /// What happened (`tpEvento`): 7, the service is available, or 8, it is not.
        code: u8,
    },
    /// Type 7: a clocking (`marcação de ponto para REP-P`).
    Clocking {
        /// The clocking's moment (`dtHrMarcacao`).
        marked: Stamp,
        /// The worker (`cpfEmpregado`).
        cpf: Cpf,
        /// When the recorder took the record (`dtHrGravacao`).
        recorded: Stamp,
        /// Where it was made (`idColetor`): 1 mobile application, 2 browser, 3 desktop program, 4 device, 5 other.
        collector: u8,
        /// Whether it was kept by the collector for a while (`marcação off-line`).
        offline: bool,
    },
}

/// The stamp at which the recorder took the record: `at`, `after` or `recorded`.
pub fn recorded(body: &Body) -> Stamp
    ensures { result ≡ recorded_of body.now }
{
    match body {
        Body::Employer { at, .. } | Body::Worker { at, .. } | Body::Event { at, .. } => *at,
        Body::Adjust { after, .. } => *after,
        Body::Clocking { recorded, .. } => *recorded,
    }
}
