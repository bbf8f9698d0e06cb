//! The keys of a site file.
ghost use Rattle.std.specs.Prelude.{◌≡◌};
ghost use Rattle.rep_site.specs.Key.{key_text};

use std::fmt;

pub(crate) const EMPLOYER_KIND: &str = "employer_kind";

pub(crate) const EMPLOYER: &str = "employer";

pub(crate) const CNO: &str = "cno";

pub(crate) const NAME: &str = "name";

pub(crate) const PLACE: &str = "place";

pub(crate) const RESPONSIBLE: &str = "responsible";

pub(crate) const REP: &str = "rep";

pub(crate) const DEVELOPER_KIND: &str = "developer_kind";

pub(crate) const DEVELOPER: &str = "developer";

pub(crate) const OFFSET: &str = "offset";

pub(crate) const LAST_NSR: &str = "last_nsr";

pub(crate) const RESTARTS: &str = "restarts";

/// The keys that a site file may have.
pub(crate) const KEYS: [&str; 12] = [
    EMPLOYER_KIND,
    EMPLOYER,
    CNO,
    NAME,
    PLACE,
    RESPONSIBLE,
    REP,
    DEVELOPER_KIND,
    DEVELOPER,
    OFFSET,
    LAST_NSR,
    RESTARTS,
];

/// A key of a site file, in the order in which they are looked at.
#[derive(Clone, Copy, Debug, PartialEq, Eq)]
pub enum SiteKey {
    /// `employer_kind`: 1 for an organisation, 2 for a person.
    EmployerKind,
    /// `employer`: the id of that kind, 14 digits of a CNPJ or 11 of a CPF.
    Employer,
    /// `cno`: the CNO or CAEPF, up to 14 digits alone, no spaces; empty by default.
    Cno,
    /// `name`: the employer's name, 1 to 150 characters.
    Name,
    /// `place`: the place of work, 0 to 100 characters.
    Place,
    /// `responsible`: the CPF of who is responsible.
    Responsible,
    /// `rep`: the recorder's registration, 17 digits.
    Rep,
    /// `developer_kind`: 1 where an organisation made the recorder, 2 where a person did.
    DeveloperKind,
    /// `developer`: the id of that kind.
    Developer,
    /// `offset`: how far the recorder's clock is ahead of UTC, as `+hhmm` or `-hhmm`.
    Offset,
    /// `last_nsr`: the last number that a record may have, 1 to 999,999,999; 999,999,999 by default.
    LastNsr,
    /// `restarts`: how many times a recorder that stopped may be started again, 0 by default; another number isn't taken yet.
    Restarts,
    /// Any other key.
    Unknown,
}

impl SiteKey {
    /// The key as the file has it, and `?` for one that isn't known.
    pub fn name(&self) -> &'static str
        ensures { result.now ≡ key_text self.now }
    {
        match self {
            SiteKey::EmployerKind => EMPLOYER_KIND,
            SiteKey::Employer => EMPLOYER,
            SiteKey::Cno => CNO,
            SiteKey::Name => NAME,
            SiteKey::Place => PLACE,
            SiteKey::Responsible => RESPONSIBLE,
            SiteKey::Rep => REP,
            SiteKey::DeveloperKind => DEVELOPER_KIND,
            SiteKey::Developer => DEVELOPER,
            SiteKey::Offset => OFFSET,
            SiteKey::LastNsr => LAST_NSR,
            SiteKey::Restarts => RESTARTS,
            SiteKey::Unknown => "?",
        }
    }
}

impl fmt::Display for SiteKey {
    fn fmt<W: fmt::Write>(&self, f: &mut fmt::Formatter<W>) -> fmt::Result {
        f.write_str(self.name())
    }
}
