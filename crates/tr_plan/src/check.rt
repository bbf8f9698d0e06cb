//! The rules across the rows of a plan.
ghost use Rattle.std.specs.Prelude.{◌≡◌, ◌<◌, ◌^◌, List, All, Any, AllPairs, IfOk, IfSome, IfNone, IsTrue, IsFalse, length};
ghost use Rattle.tr_plan.specs.Index.{HasCodes, HasEnds};
ghost use Rattle.tr_plan.specs.Link.{BeginsFirst, AreApart, DoOverlap};
ghost use Rattle.tr_plan.specs.Plan.{HasKnownCode};
ghost use Rattle.tr_plan.specs.Reading.{IsFirstUnknownCode, IsFirstOverlap};
ghost use Rattle.tr_plan.specs.declared.link.Link.{Link};
ghost use Rattle.tr_plan.specs.declared.schedule.Schedule.{Schedule};

use crate::link::Link;
use crate::schedule::code_key;
use rep_fields::Cpf;
use std::alloc::{AllocError, Global};
use std::collections::{BTreeMap, BTreeSet};

/// The place, counted from 1, of the first link whose code isn't among these.
pub(crate) fn unknown_code(codes: &BTreeSet<[u8; 30]>, links: &[Link]) -> Option<u32>
    requires few { length links.now < 2 ^ 32 }
    ensures found { IfSome result (λ place. (schedules : List Schedule) → HasCodes codes.now schedules
        → IsFirstUnknownCode schedules links.now place) }
    ensures none { IfNone result ((schedules : List Schedule) → HasCodes codes.now schedules
        → All (HasKnownCode schedules) links.now) }
{
    for (i, link) in links.iter().enumerate() {
        if !codes.contains(&code_key(&link.schedule)) {
            return Some(i as u32 + 1);
        }
    }
    None
}

/// The CPF of the first link that holds on a day of an earlier link of the same CPF.
pub(crate) fn overlap(alloc: Global, links: &[Link]) -> Result<Option<Cpf>, AllocError>
    requires in_order { All BeginsFirst links.now }
    ensures found { IfOk result (λ met. IfSome met (IsFirstOverlap links.now)) }
    ensures none { IfOk result (λ met. IfNone met (AllPairs AreApart links.now)) }
{
    let mut ends = BTreeMap::new(alloc);
    for link in links {
        if meets_earlier(&ends, link) {
            return Ok(Some(link.cpf));
        }
        let Ok(_) = ends.insert((link.cpf.number, link.since.number), link.until.number) else {
            return Err(AllocError);
        };
    }
    Ok(None)
}

// Whether the link holds on a day of an earlier link of the same CPF. Of those that begin by its last day the latest one
// ends last, since no two of them have a day in common: the others needn't be looked at.
fn meets_earlier(ends: &BTreeMap<(u64, u32), u32>, link: &Link) -> bool
    ensures met { IsTrue result → (earlier : List Link) → HasEnds ends.now earlier
        → Any (λ other. DoOverlap other link.now) earlier }
    ensures apart { IsFalse result → (earlier : List Link) → HasEnds ends.now earlier → All BeginsFirst earlier
        → AllPairs AreApart earlier → All (λ other. AreApart other link.now) earlier }
{
    match ends
        .range(..=(link.cpf.number, link.until.number))
        .next_back()
    {
        Some((begin, until)) => begin.0 == link.cpf.number && link.since.number <= *until,
        None => false,
    }
}
