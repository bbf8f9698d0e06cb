//! Which link covers a mark, and the day on which the mark counts.
ghost use Rattle.std.specs.Prelude.{◌≡◌, ◌+◌, ℕ, Some, IfSome};
ghost use Rattle.tr_plan.specs.Plan.{IsPlan};
ghost use Rattle.tr_days.specs.Cover.{cover_of, journey_of};
ghost use Rattle.tr_days.specs.CoverParts.{IsCoveredOn, lower_of};

use rep_fields::{Cpf, Day, Stamp};
use tr_plan::{Links, Plan};

/// The place, counted from 0, of the mark's covering link: the first in the plan that is the worker's and in whose dates
/// the mark's day under it lies. It takes no memory and looks at two links at most.
pub fn cover(plan: &Plan, cpf: Cpf, at: Stamp) -> Option<u32>
    requires { IsPlan plan.now }
    ensures { result ≡ cover_of plan.now.links cpf at }
{
    let on_day = covered_on(&plan.links, cpf, &at, at.day());
    let on_eve = covered_on_eve(&plan.links, cpf, &at, at.day());
    lower_of(on_day, on_eve)
}

/// The worker's mark's journey day: its day under its covering link, or the day that its stamp shows where no link covers
/// it.
pub fn journey(plan: &Plan, cpf: Cpf, at: Stamp) -> Day
    requires { IsPlan plan.now }
    ensures { result ≡ journey_of plan.now.links cpf at }
{
    match cover(plan, cpf, at) {
        Some(place) => plan.links.get(place).journey_day(&at),
        None => at.day(),
    }
}

// The place of the link that covers the mark on the day. Since the turn is a minute of the day, a mark counts on the day
// that its stamp shows or on the day before.
fn covered_on(links: &Links, cpf: Cpf, at: &Stamp, day: Day) -> Option<u32>
    ensures found { IfSome result (IsCoveredOn links.now cpf at.now day) }
    ensures only { (place : ℕ) → IsCoveredOn links.now cpf at.now day place → result ≡ Some place }
{
    let Some(place) = links.on(cpf, day) else {
        return None;
    };
    if links.get(place).journey_day(at) == day {
        Some(place)
    } else {
        None
    }
}

// The place of the link that covers the mark on the day before this one.
fn covered_on_eve(links: &Links, cpf: Cpf, at: &Stamp, day: Day) -> Option<u32>
    ensures found { IfSome result (λ place. (eve : ℕ) × IsCoveredOn links.now cpf at.now eve place) }
    ensures only { (eve place : ℕ) → eve + 1 ≡ day → IsCoveredOn links.now cpf at.now eve place → result ≡ Some place }
{
    match day.number.checked_sub(1) {
        Some(number) => covered_on(links, cpf, at, Day { number }),
        None => None,
    }
}

// The lower of two places.
fn lower_of(a: Option<u32>, b: Option<u32>) -> Option<u32>
    ensures { result ≡ lower_of a b }
{
    match (a, b) {
        (Some(a), Some(b)) => Some(a.min(b)),
        (Some(a), None) => Some(a),
        (None, Some(b)) => Some(b),
        (None, None) => None,
    }
}
