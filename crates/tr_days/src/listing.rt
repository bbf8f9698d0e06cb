//! The marks of a link in a period.
ghost use Rattle.std.specs.Prelude.{◌≡◌, ◌<◌, ◌++◌, [], length, filter, filter_map, IfOk, slice_get, Some, IsPermutation, IsSorted};
ghost use Rattle.std.specs.List.{cons_option, enumerate_from};
ghost use Rattle.std.specs.List.Sorted.{IsStable, IsNonDecreasingBy};
ghost use Rattle.tr_plan.specs.Plan.{IsPlan};
ghost use Rattle.tr_plan.specs.declared.link.Link.{Link as TheLink};
ghost use Rattle.tr_days.specs.Journey.{JourneyMark};
ghost use Rattle.tr_days.specs.Marks.{AreMarksOf, drop_of, original_mark, included_mark, is_in_period, mark_cmp};

use crate::clocking::Clocking;
use crate::covering::cover;
use crate::mark::Mark;
use crate::originals::Originals;
use crate::root::Root;
use rep_fields::Day;
use rep_io::OutOfMemory;
use std::alloc::Global;
use tr_plan::{Disregards, Include, Link, Plan};

/// The link's marks whose journey day lies in the period: the originals that it covers, with the disregard of each that is
/// dropped, and the marks that the plan includes for it. They stand by journey day, then by instant, originals before
/// included ones, and then by NSR or by place in the plan. The link is a place of the plan's links; the first and the last
/// day belong to the period.
///
/// # Errors
///
/// `OutOfMemory` alone.
pub fn marks(
    alloc: Global,
    originals: &Originals,
    plan: &Plan,
    link: u32,
    from: Day,
    to: Day,
) -> Result<Vec<Mark>, OutOfMemory>
    requires plan { IsPlan plan.now }
    requires within { link < length plan.now.links }
    ensures listed { IfOk result (λ marks. AreMarksOf originals.now plan.now link from to marks.items) }
    ensures by_day { IfOk result (λ marks. IsNonDecreasingBy (λ (mark : JourneyMark). mark.day) marks.items) }
{
    let clockings = originals.of_worker(plan.links.get(link).cpf);
    let mut marks = Vec::new(alloc);
    push_originals(&mut marks, clockings, plan, link, from, to)?;
    push_included(&mut marks, plan, link, from, to)?;
    put_in_order(&mut marks)?;
    Ok(marks)
}

// Puts behind the marks those of the clockings that the link covers.
fn push_originals(
    marks: &mut Vec<Mark>,
    clockings: &[Clocking],
    plan: &Plan,
    link: u32,
    from: Day,
    to: Day,
) -> Result<(), OutOfMemory>
    requires plan { IsPlan plan.now }
    requires within { link < length plan.now.links }
    ensures { IfOk result (λ _. (row : TheLink) → slice_get plan.now.links link ≡ Some row
        → marks.new.items ≡ marks.old.items
        ++ filter (is_in_period from to) (filter_map (original_mark plan.now link row) clockings.now)) }
{
    for clocking in clockings {
        push_within(marks, original_mark(plan, link, clocking), from, to)?;
    }
    Ok(())
}

// Puts behind the marks those that the plan includes for the link.
fn push_included(
    marks: &mut Vec<Mark>,
    plan: &Plan,
    link: u32,
    from: Day,
    to: Day,
) -> Result<(), OutOfMemory>
    requires plan { IsPlan plan.now }
    requires within { link < length plan.now.links }
    ensures { IfOk result (λ _. (row : TheLink) → slice_get plan.now.links link ≡ Some row
        → marks.new.items ≡ marks.old.items
        ++ filter (is_in_period from to) (filter_map (included_mark row) (enumerate_from 0 plan.now.includes))) }
{
    let row = plan.links.get(link);
    for place in 0..plan.includes.len() {
        let mark = included_mark(row, place, plan.includes.get(place));
        push_within(marks, mark, from, to)?;
    }
    Ok(())
}

// The clocking as a mark of the link, where that is its covering link.
fn original_mark(plan: &Plan, link: u32, clocking: &Clocking) -> Option<Mark>
    requires plan { IsPlan plan.now }
    requires within { link < length plan.now.links }
    ensures { (row : TheLink) → slice_get plan.now.links link ≡ Some row
        → result ≡ original_mark plan.now link row clocking.now }
{
    if cover(plan, clocking.cpf, clocking.at) != Some(link) {
        return None;
    }
    Some(Mark {
        at: clocking.at,
        day: plan.links.get(link).journey_day(&clocking.at),
        from: Root::Original {
            nsr: clocking.nsr,
            dropped: dropped(plan, clocking.nsr),
        },
    })
}

// The place of the disregard that names the clocking.
fn dropped(plan: &Plan, nsr: u32) -> Option<u32>
    requires { IsPlan plan.now }
    ensures { result ≡ drop_of plan.now.disregards nsr }
{
    plan.disregards.place_of(nsr)
}

// The inclusion at the place as a mark of the link, where it names the link.
fn included_mark(link: &Link, place: u32, row: &Include) -> Option<Mark>
    ensures { result ≡ included_mark link.now (place, row.now) }
{
    if row.link != link.id {
        return None;
    }
    Some(Mark {
        at: row.at,
        day: link.journey_day(&row.at),
        from: Root::Included { place },
    })
}

// Puts the mark, if there is one, behind the others where its journey day lies in the period.
fn push_within(
    marks: &mut Vec<Mark>,
    mark: Option<Mark>,
    from: Day,
    to: Day,
) -> Result<(), OutOfMemory>
    ensures { IfOk result (λ _. marks.new.items ≡ marks.old.items
        ++ filter (is_in_period from to) (cons_option mark [])) }
{
    let Some(mark) = mark else {
        return Ok(());
    };
    if from.number <= mark.day.number && mark.day.number <= to.number {
        marks.push(mark)?;
    }
    Ok(())
}

// Puts the marks in their order.
fn put_in_order(marks: &mut Vec<Mark>) -> Result<(), OutOfMemory>
    ensures same { IsPermutation marks.old.items marks.new.items }
    ensures in_order { IfOk result (λ _. IsSorted mark_cmp marks.new.items) }
    ensures ties { IsStable mark_cmp marks.old.items marks.new.items }
{
    marks.sort_by_key(|mark| mark.rank())?;
    Ok(())
}
