//! The tables `link`.
ghost use Rattle.std.specs.Prelude.{◌≡◌, ◌↔◌, ◌<◌, ◌^◌, List, length, IfOk, IfErr, IsTrue};
ghost use Rattle.toml.specs.View.{view, table_view};
ghost use Rattle.toml_fields.specs.Answering.{IsFirstOff};
ghost use Rattle.tr_plan.specs.Index.{HasPlaces};
ghost use Rattle.tr_plan.specs.Link.{HasLinks, IsLinkOf, IsLinkOff, IsLinkKeySound, IsInDates, journey_day, link_number, link_looked_at, person_keys, terms_keys};
ghost use Rattle.tr_plan.specs.LinkParts.{IsPersonOf, AreTermsOf};
ghost use Rattle.tr_plan.specs.Plan.{HaveDifferentIds};
ghost use Rattle.tr_plan.specs.Reading.{IsCause, links_part};
ghost use Rattle.tr_plan.specs.Rows.{IsRow};
ghost use Rattle.tr_plan.specs.declared.link.Link.{Link};

use crate::fault::PlanFault;
use crate::fields::{
    day_at, day_or, integer_or_zero, plain_text_at, plain_text_or_empty, time_or_midnight,
};
use crate::table::rows_at;
use rep_fields::{Cpf, Day, LAST_DAY, MINUTES_OF_DAY, Stamp, Text};
use std::alloc::Global;
use std::collections::BTreeMap;
use toml::{Table, Value};
use toml_fields::{cpf_at, has_only, number_at};

const TABLE: &str = "link";

const NUMBER: u8 = 3;

const KEYS: [&str; 9] = [
    "id", "cpf", "name", "schedule", "since", "until", "turn", "esocial", "opening",
];

/// The greatest id of a link.
pub(crate) const GREATEST_ID: u32 = 999_999_999;

/// Who works under which hours, from which day to which (records 03 and 06 of Portaria MTP 671/2021, annex VI).
#[derive(Clone, Copy, Debug)]
pub struct Link {
    /// The link's id (`idtVinculoAej`), 1 to 999,999,999.
    pub id: u32,
    /// The worker.
    pub cpf: Cpf,
    /// The worker's name (`nomeEmp`), 1 to 150 bytes.
    pub name: Text<150>,
    /// The code of the schedule (`codHorContratual`), 1 to 30 bytes.
    pub schedule: Text<30>,
    /// The first day.
    pub since: Day,
    /// The last day, not before the first one.
    pub until: Day,
    /// The minute of the day, 0 to 1439, before which a mark belongs to the day before.
    pub turn: u32,
    /// The worker's registration at eSocial (`matEsocial`), 0 to 30 bytes.
    pub esocial: Text<30>,
    /// The minutes of the hour bank before the period.
    pub opening: i64,
}

impl Link {
    /// The day on which a mark counts under the link: that of its minute less the link's turn, never before 1970-01-01.
    pub fn journey_day(&self, at: &Stamp) -> Day
        ensures { result ≡ journey_day self.now at.now }
    {
        Day {
            number: at.local.saturating_sub(self.turn) / MINUTES_OF_DAY,
        }
    }

    /// Whether the day lies in the link's dates.
    pub fn is_in_force(&self, day: Day) -> bool
        ensures { IsTrue result ↔ IsInDates self.now day }
    {
        self.since.number <= day.number && day.number <= self.until.number
    }
}

/// A key of a row, in the order of their numbers.
#[derive(Clone, Copy, Debug, PartialEq, Eq)]
pub(crate) enum LinkKey {
    Id,
    CpfKey,
    Name,
    Schedule,
    Since,
    Until,
    Turn,
    Esocial,
    Opening,
    Unknown,
}

impl LinkKey {
    /// The number by which a fault names the key.
    pub(crate) fn number(&self) -> u8
        ensures { result ≡ link_number self.now }
    {
        match self {
            LinkKey::Id => 1,
            LinkKey::CpfKey => 2,
            LinkKey::Name => 3,
            LinkKey::Schedule => 4,
            LinkKey::Since => 5,
            LinkKey::Until => 6,
            LinkKey::Turn => 7,
            LinkKey::Esocial => 8,
            LinkKey::Opening => 9,
            LinkKey::Unknown => 0,
        }
    }
}

/// The links of a plan, and the place of each by its id.
#[derive(Drop)]
pub(crate) struct LinkTable {
    pub links: Vec<Link>,
    pub places: BTreeMap<u32, u32>,
}

// What the keys of the person say.
#[derive(Drop)]
struct Person {
    id: u32,
    cpf: Cpf,
    name: Text<150>,
    schedule: Text<30>,
}

// What the keys of the terms say.
#[derive(Drop)]
struct Terms {
    since: Day,
    until: Day,
    turn: u32,
    esocial: Text<30>,
    opening: i64,
}

/// The links that the tables say, or the first fault.
pub(crate) fn links_of(alloc: Global, table: &Table) -> Result<LinkTable, PlanFault>
    ensures ok { IfOk result (λ t. HasLinks (table_view table.now) t.links.items) }
    ensures places { IfOk result (λ t. HasPlaces t.places t.links.items) }
    ensures differ { IfOk result (λ t. HaveDifferentIds t.links.items) }
    ensures few { IfOk result (λ t. length t.links.items < 2 ^ 32) }
    ensures off { IfErr result (IsCause (table_view table.now) links_part) }
{
    let Some(rows) = rows_at(table, TABLE) else {
        return Err(PlanFault::PlanField {
            table: NUMBER,
            place: 0,
            key: 0,
        });
    };
    let mut links = Vec::new(alloc);
    let mut places = BTreeMap::new(alloc);
    for (i, value) in rows.iter().enumerate() {
        let Ok(place) = u32::try_from(i + 1) else {
            return Err(PlanFault::OutOfMemory);
        };
        let link = match link_of(value, &places) {
            Ok(link) => link,
            Err(key) => return Err(PlanFault::PlanField {
                table: NUMBER,
                place,
                key: key.number(),
            }),
        };
        let Ok(_) = places.insert(link.id, place - 1) else {
            return Err(PlanFault::OutOfMemory);
        };
        let Ok(_) = links.push(link) else {
            return Err(PlanFault::OutOfMemory);
        };
    }
    Ok(LinkTable { links, places })
}

// The link that a row says, behind those whose places are known.
fn link_of(value: &Value, places: &BTreeMap<u32, u32>) -> Result<Link, LinkKey>
    ensures ok { IfOk result (λ link. (earlier : List Link) → HasPlaces places.now earlier
        → IsRow (IsLinkOf earlier) (view value.now) link) }
    ensures off { IfErr result (λ key. (earlier : List Link) → HasPlaces places.now earlier
        → IsLinkOff earlier (view value.now) key) }
{
    match value.as_table() {
        Some(row) => link_in(row, places),
        None => Err(LinkKey::Unknown),
    }
}

fn link_in(row: &Table, places: &BTreeMap<u32, u32>) -> Result<Link, LinkKey>
    ensures ok { IfOk result (λ link. (earlier : List Link) → HasPlaces places.now earlier
        → IsLinkOf earlier (table_view row.now) link) }
    ensures off { IfErr result (λ key. (earlier : List Link) → HasPlaces places.now earlier
        → IsFirstOff (IsLinkKeySound earlier (table_view row.now)) link_looked_at key) }
{
    let person = match person_of(row, places) {
        Ok(person) => person,
        Err(key) => return Err(key),
    };
    let terms = match terms_of(row) {
        Ok(terms) => terms,
        Err(key) => return Err(key),
    };
    if !has_only(row, &KEYS) {
        return Err(LinkKey::Unknown);
    }
    Ok(Link {
        id: person.id,
        cpf: person.cpf,
        name: person.name,
        schedule: person.schedule,
        since: terms.since,
        until: terms.until,
        turn: terms.turn,
        esocial: terms.esocial,
        opening: terms.opening,
    })
}

fn person_of(row: &Table, places: &BTreeMap<u32, u32>) -> Result<Person, LinkKey>
    ensures ok { IfOk result (λ person. (earlier : List Link) → HasPlaces places.now earlier
        → IsPersonOf earlier (table_view row.now) person) }
    ensures off { IfErr result (λ key. (earlier : List Link) → HasPlaces places.now earlier
        → IsFirstOff (IsLinkKeySound earlier (table_view row.now)) person_keys key) }
{
    let Some(id) = number_at(row, "id", 1, GREATEST_ID) else {
        return Err(LinkKey::Id);
    };
    if places.contains_key(&id) {
        return Err(LinkKey::Id);
    }
    let Some(cpf) = cpf_at(row, "cpf") else {
        return Err(LinkKey::CpfKey);
    };
    let Some(name) = plain_text_at(row, "name", 1) else {
        return Err(LinkKey::Name);
    };
    let Some(schedule) = plain_text_at(row, "schedule", 1) else {
        return Err(LinkKey::Schedule);
    };
    Ok(Person {
        id,
        cpf,
        name,
        schedule,
    })
}

fn terms_of(row: &Table) -> Result<Terms, LinkKey>
    ensures ok { IfOk result (AreTermsOf (table_view row.now)) }
    ensures off { IfErr result (λ key. (earlier : List Link)
        → IsFirstOff (IsLinkKeySound earlier (table_view row.now)) terms_keys key) }
{
    let Some(since) = day_at(row, "since") else {
        return Err(LinkKey::Since);
    };
    let last = Day { number: LAST_DAY };
    let Some(until) = day_or(row, "until", last) else {
        return Err(LinkKey::Until);
    };
    if until.number < since.number {
        return Err(LinkKey::Until);
    }
    let Some(turn) = time_or_midnight(row, "turn") else {
        return Err(LinkKey::Turn);
    };
    let Some(esocial) = plain_text_or_empty(row, "esocial") else {
        return Err(LinkKey::Esocial);
    };
    let Some(opening) = integer_or_zero(row, "opening") else {
        return Err(LinkKey::Opening);
    };
    Ok(Terms {
        since,
        until,
        turn,
        esocial,
        opening,
    })
}
