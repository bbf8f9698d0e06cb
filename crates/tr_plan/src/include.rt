//! The tables `include`.
ghost use Rattle.std.specs.Prelude.{◌≡◌, ◌↔◌, ℕ, [], Contains, IfOk, IfErr, IfSome, IfNone, IsTrue};
ghost use Rattle.toml.specs.View.{view, table_view};
ghost use Rattle.toml_fields.specs.Answering.{Finds, IsFirstOff};
ghost use Rattle.tr_plan.specs.Include.{HasIncludes, IsIncludeOf, IsIncludeOff, IsIncludeKeySound, SaysLink, SaysSource, include_number, include_looked_at};
ghost use Rattle.tr_plan.specs.Index.{HasPlaces};
ghost use Rattle.tr_plan.specs.Plan.{HaveDifferentIds};
ghost use Rattle.tr_plan.specs.Reading.{IsIncludeCause};
ghost use Rattle.tr_plan.specs.Rows.{IsRow};

use crate::fault::PlanFault;
use crate::fields::{plain_text_or_empty, stamp_at};
use crate::link::{GREATEST_ID, Link, LinkTable};
use crate::table::rows_at;
use rep_fields::{Stamp, Text};
use std::alloc::Global;
use toml::{Table, Value};
use toml_fields::{has_only, is_missing, number_at, str_at};

const TABLE: &str = "include";

const NUMBER: u8 = 5;

const KEYS: [&str; 4] = ["link", "at", "source", "reason"];

// The source of a mark that is included by hand.
const INCLUDED: u8 = b'I';

/// A mark that is put in by hand (record 05 of Portaria MTP 671/2021, annex VI, with another source than O).
#[derive(Clone, Copy, Debug)]
pub struct Include {
    /// The id of the link (`idtVinculoAej`).
    pub link: u32,
    /// When the mark is.
    pub at: Stamp,
    /// The source (`fonteMarc`), by its letter: `I` included by hand, `P` pre-assigned, `X` by exception, `T` another one.
    pub source: u8,
    /// The reason (`motivo`), 0 to 150 bytes, and at least one for `I`.
    pub reason: Text<150>,
}

/// A key of a row, in the order of their numbers.
#[derive(Clone, Copy, Debug, PartialEq, Eq)]
pub(crate) enum IncludeKey {
    LinkKey,
    At,
    Source,
    Reason,
    Unknown,
}

impl IncludeKey {
    /// The number by which a fault names the key.
    pub(crate) fn number(&self) -> u8
        ensures { result ≡ include_number self.now }
    {
        match self {
            IncludeKey::LinkKey => 1,
            IncludeKey::At => 2,
            IncludeKey::Source => 3,
            IncludeKey::Reason => 4,
            IncludeKey::Unknown => 0,
        }
    }
}

/// The marks that the tables say under these links, or the first fault.
pub(crate) fn includes_of(
    alloc: Global,
    table: &Table,
    links: &LinkTable,
) -> Result<Vec<Include>, PlanFault>
    requires places { HasPlaces links.now.places links.now.links.items }
    requires differ { HaveDifferentIds links.now.links.items }
    ensures ok { IfOk result (λ v. HasIncludes links.now.links.items (table_view table.now) v.items) }
    ensures off { IfErr result (IsIncludeCause links.now.links.items (table_view table.now)) }
{
    let Some(rows) = rows_at(table, TABLE) else {
        return Err(PlanFault::PlanField {
            table: NUMBER,
            place: 0,
            key: 0,
        });
    };
    let mut includes = Vec::new(alloc);
    for (i, value) in rows.iter().enumerate() {
        let Ok(place) = u32::try_from(i + 1) else {
            return Err(PlanFault::OutOfMemory);
        };
        let include = match include_of(value, links) {
            Ok(include) => include,
            Err(key) => return Err(PlanFault::PlanField {
                table: NUMBER,
                place,
                key: key.number(),
            }),
        };
        let Ok(_) = includes.push(include) else {
            return Err(PlanFault::OutOfMemory);
        };
    }
    Ok(includes)
}

// The mark that a row says.
fn include_of(value: &Value, links: &LinkTable) -> Result<Include, IncludeKey>
    requires places { HasPlaces links.now.places links.now.links.items }
    requires differ { HaveDifferentIds links.now.links.items }
    ensures ok { IfOk result (IsRow (IsIncludeOf links.now.links.items []) (view value.now)) }
    ensures off { IfErr result (IsIncludeOff links.now.links.items [] (view value.now)) }
{
    let Some(row) = value.as_table() else {
        return Err(IncludeKey::Unknown);
    };
    let Some(link) = link_at(row, links) else {
        return Err(IncludeKey::LinkKey);
    };
    let Some(at) = stamp_at(row, "at") else {
        return Err(IncludeKey::At);
    };
    if !link.is_in_force(link.journey_day(&at)) {
        return Err(IncludeKey::At);
    }
    let Some(source) = source_at(row) else {
        return Err(IncludeKey::Source);
    };
    let Some(reason) = plain_text_or_empty(row, "reason") else {
        return Err(IncludeKey::Reason);
    };
    if source == INCLUDED && reason.is_empty() {
        return Err(IncludeKey::Reason);
    }
    if !has_only(row, &KEYS) {
        return Err(IncludeKey::Unknown);
    }
    Ok(Include {
        link: link.id,
        at,
        source,
        reason,
    })
}

/// The link whose id stands at a row's key `link`.
pub(crate) fn link_at<'a>(row: &Table, links: &'a LinkTable) -> Option<&'a Link>
    requires { HasPlaces links.now.places links.now.links.items }
    ensures found { IfSome result (λ link. SaysLink links.now.links.items (table_view row.now) link.now.id) }
    ensures member { IfSome result (λ link. Contains links.now.links.items link.now) }
    ensures none { IfNone result ((id : ℕ) → SaysLink links.now.links.items (table_view row.now) id → ⊥) }
{
    let Some(id) = number_at(row, "link", 1, GREATEST_ID) else {
        return None;
    };
    let Some(place) = links.places.get(&id) else {
        return None;
    };
    Some(&links.links[*place as usize])
}

// The letter of the source, `I` where the key is missing.
fn source_at(row: &Table) -> Option<u8>
    ensures { Finds (SaysSource (table_view row.now)) result }
{
    if is_missing(row, "source") {
        return Some(INCLUDED);
    }
    match str_at(row, "source") {
        Some("I") => Some(INCLUDED),
        Some("P") => Some(b'P'),
        Some("X") => Some(b'X'),
        Some("T") => Some(b'T'),
        _ => None,
    }
}
