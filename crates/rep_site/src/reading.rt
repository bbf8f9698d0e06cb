//! A site from the keys of a TOML table.
ghost use Rattle.std.specs.Prelude.{IfOk, IfErr};
ghost use Rattle.toml.specs.View.{table_view};
ghost use Rattle.toml_fields.specs.Answering.{Finds, IsFirstOff};
ghost use Rattle.toml_fields.specs.Table.{HasOr};
ghost use Rattle.rep_site.specs.Key.{employing_keys, recording_keys};
ghost use Rattle.rep_site.specs.Reading.{IsSiteOf, IsSound, IsFirstBadKey, HasCno, HasRegistration};
ghost use Rattle.rep_site.specs.Parts.{IsEmployingOf, IsRecordingOf};

use crate::key::{
    CNO, DEVELOPER, DEVELOPER_KIND, EMPLOYER, EMPLOYER_KIND, KEYS, LAST_NSR, NAME, OFFSET, PLACE,
    REP, RESPONSIBLE, RESTARTS, SiteKey,
};
use crate::site::{GREATEST_NSR, Site};
use rep_fields::{Cpf, EmployerId, RepNumber, Text, get_n};
use toml::Table;
use toml_fields::{
    cpf_at, has_only, id_at, is_missing, number_at, number_or, offset_at, some_text_at, str_at,
    text_at,
};

// How many times a recorder that stopped may be started again.
const MOST_RESTARTS: u32 = 0;

// The most digits of a CNO or CAEPF.
const MOST_CNO_DIGITS: usize = 14;

// What the keys of the employer say.
#[derive(Drop)]
struct Employing {
    employer: EmployerId,
    cno: u64,
    name: Text<150>,
    place: Text<100>,
    responsible: Cpf,
}

// What the keys of the recorder say.
#[derive(Drop)]
struct Recording {
    rep: RepNumber,
    developer: EmployerId,
    offset: i16,
    last_nsr: u32,
    restarts: u8,
}

/// The site that the table says, or the first key that is off.
pub(crate) fn site_of(table: &Table) -> Result<Site, SiteKey>
    ensures ok { IfOk result (IsSiteOf (table_view table.now)) }
    ensures off { IfErr result (IsFirstBadKey (table_view table.now)) }
{
    let employing = match employing_of(table) {
        Ok(employing) => employing,
        Err(key) => return Err(key),
    };
    let recording = match recording_of(table) {
        Ok(recording) => recording,
        Err(key) => return Err(key),
    };
    if !has_only(table, &KEYS) {
        return Err(SiteKey::Unknown);
    }
    Ok(Site {
        employer: employing.employer,
        cno: employing.cno,
        name: employing.name,
        place: employing.place,
        responsible: employing.responsible,
        rep: recording.rep,
        developer: recording.developer,
        offset: recording.offset,
        last_nsr: recording.last_nsr,
        restarts: recording.restarts,
    })
}

fn employing_of(table: &Table) -> Result<Employing, SiteKey>
    ensures ok { IfOk result (IsEmployingOf (table_view table.now)) }
    ensures off { IfErr result (IsFirstOff (IsSound (table_view table.now)) employing_keys) }
{
    let Some(kind) = number_at(table, EMPLOYER_KIND, 1, 2) else {
        return Err(SiteKey::EmployerKind);
    };
    let Some(employer) = id_at(table, EMPLOYER, kind) else {
        return Err(SiteKey::Employer);
    };
    let Some(cno) = cno_or_none(table) else {
        return Err(SiteKey::Cno);
    };
    let Some(name) = some_text_at(table, NAME) else {
        return Err(SiteKey::Name);
    };
    let Some(place) = text_at(table, PLACE) else {
        return Err(SiteKey::Place);
    };
    let Some(responsible) = cpf_at(table, RESPONSIBLE) else {
        return Err(SiteKey::Responsible);
    };
    Ok(Employing {
        employer,
        cno,
        name,
        place,
        responsible,
    })
}

fn recording_of(table: &Table) -> Result<Recording, SiteKey>
    ensures ok { IfOk result (IsRecordingOf (table_view table.now)) }
    ensures off { IfErr result (IsFirstOff (IsSound (table_view table.now)) recording_keys) }
{
    let Some(rep) = registration(table) else {
        return Err(SiteKey::Rep);
    };
    let Some(kind) = number_at(table, DEVELOPER_KIND, 1, 2) else {
        return Err(SiteKey::DeveloperKind);
    };
    let Some(developer) = id_at(table, DEVELOPER, kind) else {
        return Err(SiteKey::Developer);
    };
    let Some(offset) = offset_at(table, OFFSET) else {
        return Err(SiteKey::Offset);
    };
    let Some(last_nsr) = number_or(table, LAST_NSR, 1, GREATEST_NSR, GREATEST_NSR) else {
        return Err(SiteKey::LastNsr);
    };
    let Some(restarts) = number_or(table, RESTARTS, 0, MOST_RESTARTS, 0) else {
        return Err(SiteKey::Restarts);
    };
    Ok(Recording {
        rep,
        developer,
        offset,
        last_nsr,
        restarts: restarts as u8,
    })
}

// The number of the CNO or CAEPF: 0 where the key is missing or has no digit.
fn cno_or_none(table: &Table) -> Option<u64>
    ensures { Finds (HasOr 0 HasCno (table_view table.now) CNO.now) result }
{
    if is_missing(table, CNO) {
        return Some(0);
    }
    let Some(text) = str_at(table, CNO) else {
        return None;
    };
    if text.is_empty() {
        return Some(0);
    }
    if text.len() > MOST_CNO_DIGITS {
        return None;
    }
    get_n(text.as_bytes())
}

// The recorder's registration.
fn registration(table: &Table) -> Option<RepNumber>
    ensures { Finds (HasRegistration (table_view table.now) REP.now) result }
{
    let Some(text) = str_at(table, REP) else {
        return None;
    };
    let Some(number) = RepNumber::read(text.as_bytes()) else {
        return None;
    };
    if number.is_digits() {
        Some(number)
    } else {
        None
    }
}
