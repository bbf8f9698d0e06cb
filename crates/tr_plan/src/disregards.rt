//! The disregards of a plan, which are found by the clocking's number.
ghost use Rattle.std.specs.Prelude.{◌≡◌, ◌≢◌, ◌↔◌, ◌<◌, ◌≤◌, [], length, slice_index_or, All, IfOk, IfErr, IfSome, IfNone, IsTrue};
ghost use Rattle.tr_plan.specs.Disregard.{IsDropOf};
ghost use Rattle.tr_plan.specs.Index.{HasNsrs};
ghost use Rattle.tr_plan.specs.Rows.{most_rows};
ghost use Rattle.tr_plan.specs.declared.fault.PlanFault.{PlanFault};

use crate::disregard::{Disregard, DisregardTable};
use crate::fault::PlanFault;
use crate::rows::{Rows, rows_of};
use std::collections::BTreeMap;
use std::marker::Model;

/// Disregarded clockings in the order of the file, at most 268,435,456.
#[derive(Debug, Drop)]
pub struct Disregards {
    rows: Rows<Disregard>,
    // the place of each by the clocking's number
    places: BTreeMap<u32, u32>,
}

impl Model for Disregards {
    ghost use Rattle.std.specs.Prelude.{List};
    ghost use Rattle.tr_plan.specs.declared.disregard.Disregard.{Disregard};

    ghost Value = { List Disregard };

    ghost use Rattle.tr_plan.specs.Index.{HasNsrs};

    ghost view = { λ disregards. disregards.rows };

    ghost invariant = { λ disregards. HasNsrs disregards.places disregards.rows };
}

impl Disregards {
    /// How many disregards there are: at most 268,435,456.
    pub fn len(&self) -> u32
        ensures count { result ≡ length self.now }
        ensures in_range { result ≤ most_rows }
    {
        self.rows.len()
    }

    /// Whether there is no disregard.
    pub fn is_empty(&self) -> bool
        ensures { IsTrue result ↔ (self.now ≡ []) }
    {
        self.rows.is_empty()
    }

    /// The disregard at the place, counted from 0.
    pub fn get(&self, place: u32) -> &Disregard
        requires within { place < length self.now }
        ensures row { result.now ≡ slice_index_or self.now place result.now }
    {
        self.rows.get(place)
    }

    /// The disregards as a slice.
    pub fn as_slice(&self) -> &[Disregard]
        ensures { result.now ≡ self.now }
    {
        self.rows.as_slice()
    }

    /// The place, counted from 0, of the disregard that names the clocking's number. It takes no memory.
    pub fn place_of(&self, nsr: u32) -> Option<u32>
        ensures found { IfSome result (IsDropOf self.now nsr) }
        ensures none { IfNone result (All (λ disregard. disregard.nsr ≢ nsr) self.now) }
    {
        place_in(&self.places, self.rows.as_slice(), nsr)
    }
}

/// These disregards, where there aren't too many.
pub(crate) fn disregards_from(table: DisregardTable) -> Result<Disregards, PlanFault>
    requires { HasNsrs table.places table.disregards.items }
    ensures ok { IfOk result (λ made. made ≡ table.disregards.items) }
    ensures memory { IfErr result (λ fault. fault ≡ PlanFault.OutOfMemory) }
{
    Ok(Disregards {
        rows: rows_of(table.disregards)?,
        places: table.places,
    })
}

// The place of the disregard with the number.
fn place_in(places: &BTreeMap<u32, u32>, disregards: &[Disregard], nsr: u32) -> Option<u32>
    requires { HasNsrs places.now disregards.now }
    ensures found { IfSome result (IsDropOf disregards.now nsr) }
    ensures none { IfNone result (All (λ disregard. disregard.nsr ≢ nsr) disregards.now) }
{
    places.get(&nsr).copied()
}
