//! The links of a plan, which are found by CPF and day.
ghost use Rattle.std.specs.Prelude.{◌≡◌, ◌↔◌, ◌<◌, ◌≤◌, ℕ, [], length, slice_index_or, All, AllPairs, IfOk, IfErr, IfSome, IsTrue};
ghost use Rattle.tr_plan.specs.Index.{HasStarts, AreStarts};
ghost use Rattle.tr_plan.specs.Link.{BeginsFirst, IsOn, AreApart};
ghost use Rattle.tr_plan.specs.Rows.{most_rows};
ghost use Rattle.tr_plan.specs.declared.fault.PlanFault.{PlanFault};

use crate::fault::PlanFault;
use crate::link::Link;
use crate::rows::{Rows, rows_of};
use rep_fields::{Cpf, Day};
use std::alloc::Global;
use std::collections::BTreeMap;
use std::marker::Model;

/// Links in the order of the file, at most 268,435,456. Those of one CPF have no day in common.
#[derive(Debug, Drop)]
pub struct Links {
    rows: Rows<Link>,
    // the place of each by its CPF and first day
    starts: BTreeMap<(u64, u32), u32>,
}

impl Model for Links {
    ghost use Rattle.std.specs.Prelude.{List};
    ghost use Rattle.tr_plan.specs.declared.link.Link.{Link};

    ghost Value = { List Link };

    ghost use Rattle.tr_plan.specs.Index.{AreStarts};

    ghost view = { λ links. links.rows };

    ghost invariant = { λ links. AreStarts links.starts links.rows };
}

impl Links {
    /// How many links there are: at most 268,435,456.
    pub fn len(&self) -> u32
        ensures count { result ≡ length self.now }
        ensures in_range { result ≤ most_rows }
    {
        self.rows.len()
    }

    /// Whether there is no link.
    pub fn is_empty(&self) -> bool
        ensures { IsTrue result ↔ (self.now ≡ []) }
    {
        self.rows.is_empty()
    }

    /// The link at the place, counted from 0.
    pub fn get(&self, place: u32) -> &Link
        requires within { place < length self.now }
        ensures row { result.now ≡ slice_index_or self.now place result.now }
    {
        self.rows.get(place)
    }

    /// The links as a slice.
    pub fn as_slice(&self) -> &[Link]
        ensures { result.now ≡ self.now }
    {
        self.rows.as_slice()
    }

    /// The place, counted from 0, of the CPF's link that is in force on the day. It takes no memory and looks at one link.
    pub fn on(&self, cpf: Cpf, day: Day) -> Option<u32>
        ensures found { IfSome result (IsOn self.now cpf day) }
        ensures only { (place : ℕ) → IsOn self.now cpf day place → result ≡ Some place }
    {
        on_day(&self.starts, self.rows.as_slice(), cpf, day)
    }
}

/// These links, where there aren't too many.
pub(crate) fn links_from(alloc: Global, links: Vec<Link>) -> Result<Links, PlanFault>
    requires in_order { All BeginsFirst links.items }
    requires apart { AllPairs AreApart links.items }
    ensures ok { IfOk result (λ made. made ≡ links.items) }
    ensures memory { IfErr result (λ fault. fault ≡ PlanFault.OutOfMemory) }
{
    let starts = starts_of(alloc, &links)?;
    Ok(Links {
        rows: rows_of(links)?,
        starts,
    })
}

// The place of each link by its CPF and first day.
fn starts_of(alloc: Global, links: &[Link]) -> Result<BTreeMap<(u64, u32), u32>, PlanFault>
    ensures ok { IfOk result (λ starts. HasStarts starts links.now) }
    ensures memory { IfErr result (λ fault. fault ≡ PlanFault.OutOfMemory) }
{
    let mut starts = BTreeMap::new(alloc);
    for (i, link) in links.iter().enumerate() {
        let Ok(place) = u32::try_from(i) else {
            return Err(PlanFault::OutOfMemory);
        };
        let Ok(_) = starts.insert((link.cpf.number, link.since.number), place) else {
            return Err(PlanFault::OutOfMemory);
        };
    }
    Ok(starts)
}

// Of the CPF's links that begin by the day only the last one can be in force, since no two have a day in common.
fn on_day(starts: &BTreeMap<(u64, u32), u32>, links: &[Link], cpf: Cpf, day: Day) -> Option<u32>
    requires { AreStarts starts.now links.now }
    ensures found { IfSome result (IsOn links.now cpf day) }
    ensures only { (place : ℕ) → IsOn links.now cpf day place → result ≡ Some place }
{
    let Some((begin, place)) = starts.range(..=(cpf.number, day.number)).next_back() else {
        return None;
    };
    let link = &links[*place as usize];
    if begin.0 == cpf.number && day.number <= link.until.number {
        Some(*place)
    } else {
        None
    }
}
