//! The tables `disregard`.
ghost use Rattle.std.specs.Prelude.{◌≡◌, List, IfOk, IfErr};
ghost use Rattle.toml.specs.View.{view, table_view};
ghost use Rattle.tr_plan.specs.Disregard.{HasDisregards, IsDisregardOf, IsDisregardOff, disregard_number};
ghost use Rattle.tr_plan.specs.Index.{HasNsrs};
ghost use Rattle.tr_plan.specs.Reading.{IsCause, disregards_part};
ghost use Rattle.tr_plan.specs.Rows.{IsRow};
ghost use Rattle.tr_plan.specs.declared.disregard.Disregard.{Disregard};

use crate::fault::PlanFault;
use crate::fields::plain_text_at;
use crate::table::rows_at;
use rep_fields::Text;
use std::alloc::Global;
use std::collections::BTreeMap;
use toml::{Table, Value};
use toml_fields::{has_only, number_at};

const TABLE: &str = "disregard";

const NUMBER: u8 = 4;

const KEYS: [&str; 2] = ["nsr", "reason"];

// The greatest number of a record: nine digits, as on the lines of an AFD.
const GREATEST_NSR: u32 = 999_999_999;

/// A clocking that doesn't count (mark D in record 05 of Portaria MTP 671/2021, annex VI).
#[derive(Clone, Copy, Debug)]
pub struct Disregard {
    /// The clocking's number in the AFD, 1 to 999,999,999.
    pub nsr: u32,
    /// The reason (`motivo`), 1 to 150 bytes.
    pub reason: Text<150>,
}

/// A key of a row, in the order of their numbers.
#[derive(Clone, Copy, Debug, PartialEq, Eq)]
pub(crate) enum DisregardKey {
    Nsr,
    Reason,
    Unknown,
}

impl DisregardKey {
    /// The number by which a fault names the key.
    pub(crate) fn number(&self) -> u8
        ensures { result ≡ disregard_number self.now }
    {
        match self {
            DisregardKey::Nsr => 1,
            DisregardKey::Reason => 2,
            DisregardKey::Unknown => 0,
        }
    }
}

/// The disregards of a plan, and the place of each by its number.
#[derive(Drop)]
pub(crate) struct DisregardTable {
    pub disregards: Vec<Disregard>,
    pub places: BTreeMap<u32, u32>,
}

/// The disregards that the tables say, or the first fault.
pub(crate) fn disregards_of(alloc: Global, table: &Table) -> Result<DisregardTable, PlanFault>
    ensures ok { IfOk result (λ t. HasDisregards (table_view table.now) t.disregards.items) }
    ensures places { IfOk result (λ t. HasNsrs t.places t.disregards.items) }
    ensures off { IfErr result (IsCause (table_view table.now) disregards_part) }
{
    let Some(rows) = rows_at(table, TABLE) else {
        return Err(PlanFault::PlanField {
            table: NUMBER,
            place: 0,
            key: 0,
        });
    };
    let mut disregards = Vec::new(alloc);
    let mut places = BTreeMap::new(alloc);
    for (i, value) in rows.iter().enumerate() {
        let Ok(place) = u32::try_from(i + 1) else {
            return Err(PlanFault::OutOfMemory);
        };
        let disregard = match disregard_of(value, &places) {
            Ok(disregard) => disregard,
            Err(key) => return Err(PlanFault::PlanField {
                table: NUMBER,
                place,
                key: key.number(),
            }),
        };
        let Ok(_) = places.insert(disregard.nsr, place - 1) else {
            return Err(PlanFault::OutOfMemory);
        };
        let Ok(_) = disregards.push(disregard) else {
            return Err(PlanFault::OutOfMemory);
        };
    }
    Ok(DisregardTable { disregards, places })
}

// The disregard that a row says, behind those whose places are known.
fn disregard_of(value: &Value, places: &BTreeMap<u32, u32>) -> Result<Disregard, DisregardKey>
    ensures ok { IfOk result (λ disregard. (earlier : List Disregard) → HasNsrs places.now earlier
        → IsRow (IsDisregardOf earlier) (view value.now) disregard) }
    ensures off { IfErr result (λ key. (earlier : List Disregard) → HasNsrs places.now earlier
        → IsDisregardOff earlier (view value.now) key) }
{
    let Some(row) = value.as_table() else {
        return Err(DisregardKey::Unknown);
    };
    let Some(nsr) = number_at(row, "nsr", 1, GREATEST_NSR) else {
        return Err(DisregardKey::Nsr);
    };
    if places.contains_key(&nsr) {
        return Err(DisregardKey::Nsr);
    }
    let Some(reason) = plain_text_at(row, "reason", 1) else {
        return Err(DisregardKey::Reason);
    };
    if !has_only(row, &KEYS) {
        return Err(DisregardKey::Unknown);
    }
    Ok(Disregard { nsr, reason })
}
