//! The tables `absence`.
ghost use Rattle.std.specs.Prelude.{◌≡◌, IfOk, IfErr, []};
ghost use Rattle.toml.specs.View.{view, table_view};
ghost use Rattle.toml_fields.specs.Answering.{Finds};
ghost use Rattle.tr_plan.specs.Absence.{HasAbsences, IsAbsenceOf, IsAbsenceOff, SaysMinutes, SaysMovement, absence_number};
ghost use Rattle.tr_plan.specs.Index.{HasPlaces};
ghost use Rattle.tr_plan.specs.Reading.{IsAbsenceCause};
ghost use Rattle.tr_plan.specs.Rows.{IsRow};

use crate::fault::PlanFault;
use crate::fields::day_at;
use crate::include::link_at;
use crate::link::LinkTable;
use crate::table::rows_at;
use rep_fields::Day;
use std::alloc::Global;
use toml::{Table, Value};
use toml_fields::{has_only, is_missing, number_at};

const TABLE: &str = "absence";

const NUMBER: u8 = 6;

const KEYS: [&str; 5] = ["link", "kind", "date", "minutes", "movement"];

// The kind by which the hour bank moves.
const BANK_MOVEMENT: u32 = 3;

// The greatest number of minutes.
const MOST_MINUTES: u32 = 99_999;

/// A day off, or a movement of the hour bank (record 07 of Portaria MTP 671/2021, annex VI).
#[derive(Clone, Copy, Debug)]
pub struct Absence {
    /// The id of the link (`idtVinculoAej`).
    pub link: u32,
    /// The kind (`tipoAusenOuComp`): 1 weekly rest, 2 unjustified absence, 3 movement of the hour bank, 4 compensation of a
    /// holiday.
    pub kind: u8,
    /// The day (`data`).
    pub date: Day,
    /// The minutes (`qtMinutos`), 0 to 99,999; there are some for kind 3.
    pub minutes: Option<u32>,
    /// The direction (`tipoMovBH`), 1 into the hour bank or 2 out of it; there is one exactly for kind 3.
    pub movement: Option<u8>,
}

/// A key of a row, in the order of their numbers.
#[derive(Clone, Copy, Debug, PartialEq, Eq)]
pub(crate) enum AbsenceKey {
    LinkKey,
    Kind,
    Date,
    Minutes,
    Movement,
    Unknown,
}

impl AbsenceKey {
    /// The number by which a fault names the key.
    pub(crate) fn number(&self) -> u8
        ensures { result ≡ absence_number self.now }
    {
        match self {
            AbsenceKey::LinkKey => 1,
            AbsenceKey::Kind => 2,
            AbsenceKey::Date => 3,
            AbsenceKey::Minutes => 4,
            AbsenceKey::Movement => 5,
            AbsenceKey::Unknown => 0,
        }
    }
}

/// The absences that the tables say under these links, or the first fault.
pub(crate) fn absences_of(
    alloc: Global,
    table: &Table,
    links: &LinkTable,
) -> Result<Vec<Absence>, PlanFault>
    requires { HasPlaces links.now.places links.now.links.items }
    ensures ok { IfOk result (λ v. HasAbsences links.now.links.items (table_view table.now) v.items) }
    ensures off { IfErr result (IsAbsenceCause links.now.links.items (table_view table.now)) }
{
    let Some(rows) = rows_at(table, TABLE) else {
        return Err(PlanFault::PlanField {
            table: NUMBER,
            place: 0,
            key: 0,
        });
    };
    let mut absences = Vec::new(alloc);
    for (i, value) in rows.iter().enumerate() {
        let Ok(place) = u32::try_from(i + 1) else {
            return Err(PlanFault::OutOfMemory);
        };
        let absence = match absence_of(value, links) {
            Ok(absence) => absence,
            Err(key) => return Err(PlanFault::PlanField {
                table: NUMBER,
                place,
                key: key.number(),
            }),
        };
        let Ok(_) = absences.push(absence) else {
            return Err(PlanFault::OutOfMemory);
        };
    }
    Ok(absences)
}

// The absence that a row says.
fn absence_of(value: &Value, links: &LinkTable) -> Result<Absence, AbsenceKey>
    requires { HasPlaces links.now.places links.now.links.items }
    ensures ok { IfOk result (IsRow (IsAbsenceOf links.now.links.items []) (view value.now)) }
    ensures off { IfErr result (IsAbsenceOff links.now.links.items [] (view value.now)) }
{
    let Some(row) = value.as_table() else {
        return Err(AbsenceKey::Unknown);
    };
    let Some(link) = link_at(row, links) else {
        return Err(AbsenceKey::LinkKey);
    };
    let Some(kind) = number_at(row, "kind", 1, 4) else {
        return Err(AbsenceKey::Kind);
    };
    let Some(date) = day_at(row, "date") else {
        return Err(AbsenceKey::Date);
    };
    let Some(minutes) = minutes_at(row, kind) else {
        return Err(AbsenceKey::Minutes);
    };
    let Some(movement) = movement_at(row, kind) else {
        return Err(AbsenceKey::Movement);
    };
    if !has_only(row, &KEYS) {
        return Err(AbsenceKey::Unknown);
    }
    Ok(Absence {
        link: link.id,
        kind: kind as u8,
        date,
        minutes,
        movement,
    })
}

// The minutes of an absence of the kind.
fn minutes_at(row: &Table, kind: u32) -> Option<Option<u32>>
    ensures { Finds (SaysMinutes (table_view row.now) kind) result }
{
    if is_missing(row, "minutes") {
        if kind == BANK_MOVEMENT {
            return None;
        }
        return Some(None);
    }
    match number_at(row, "minutes", 0, MOST_MINUTES) {
        Some(minutes) => Some(Some(minutes)),
        None => None,
    }
}

// The direction of an absence of the kind.
fn movement_at(row: &Table, kind: u32) -> Option<Option<u8>>
    ensures { Finds (SaysMovement (table_view row.now) kind) result }
{
    if kind != BANK_MOVEMENT {
        return if is_missing(row, "movement") {
            Some(None)
        } else {
            None
        };
    }
    match number_at(row, "movement", 1, 2) {
        Some(movement) => Some(Some(movement as u8)),
        None => None,
    }
}
