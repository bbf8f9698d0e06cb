//! The absences of a link in a period.
ghost use Rattle.std.specs.Prelude.{◌↔◌, ◌<◌, length, All, IfOk, IsTrue};
ghost use Rattle.tr_bank.specs.Absences.{AreAbsencesOf, IsAbsenceOf};
ghost use Rattle.tr_bank.specs.Dated.{AreDated};

use rep_fields::Day;
use rep_io::OutOfMemory;
use std::alloc::Global;
use tr_plan::{Absence, Plan};

// An absence by its day, and then by its place in the plan.
#[derive(Clone, Copy, Debug, PartialEq, Eq, PartialOrd, Ord)]
struct Dated {
    day: u32,
    place: u32,
}

/// The places of the link's absences among those of the plan, by day and then by place. The link is a place of the plan's
/// links; the first and the last day belong to the period. Places are counted from 0.
///
/// # Errors
///
/// `OutOfMemory` alone.
pub fn absences(
    alloc: Global,
    plan: &Plan,
    link: u32,
    from: Day,
    to: Day,
) -> Result<Vec<u32>, OutOfMemory>
    requires { link < length plan.now.links }
    ensures listed { IfOk result (λ places. AreAbsencesOf plan.now link from to places.items) }
    ensures within { IfOk result (λ places. All (λ place. place < length plan.now.absences) places.items) }
{
    let mut dated = dated_of(alloc, plan, link, from, to)?;
    dated.sort_unstable();
    let places = dated
        .iter()
        .map(|absence| absence.place)
        .collect::<Vec<u32>>(alloc)?;
    Ok(places)
}

// The same absences by their places alone, each with its day.
fn dated_of(
    alloc: Global,
    plan: &Plan,
    link: u32,
    from: Day,
    to: Day,
) -> Result<Vec<Dated>, OutOfMemory>
    requires { link < length plan.now.links }
    ensures { IfOk result (λ dated. AreDated plan.now link from to dated.items) }
{
    let id = plan.links.get(link).id;
    let mut dated = Vec::new(alloc);
    for place in 0..plan.absences.len() {
        let absence = plan.absences.get(place);
        if is_absence_of(id, from, to, absence) {
            dated.push(Dated {
                day: absence.date.number,
                place,
            })?;
        }
    }
    Ok(dated)
}

// Whether the absence is of the link with the id, and its day lies in the period.
fn is_absence_of(id: u32, from: Day, to: Day, absence: &Absence) -> bool
    ensures { IsTrue result ↔ IsAbsenceOf id from to absence.now }
{
    absence.link == id && from.number <= absence.date.number && absence.date.number <= to.number
}
