//! The balance of a link's hour bank.
ghost use Rattle.std.specs.Prelude.{◌≡◌, ◌<◌, length, pos, ◌+ℤ◌, ◌-ℤ◌, All, IfSome, IfNone};
ghost use Rattle.tr_bank.specs.Balance.{IsBalance, LeavesRange, StaysInRange, balance_of, compensation, inclusion, minutes_moved};

use tr_plan::{Absence, Plan};

// The kind of an absence that moves the hour bank.
const BANK_MOVEMENT: u8 = 3;

// Its directions.
const INCLUSION: u8 = 1;

const COMPENSATION: u8 = 2;

/// The minutes of the hour bank behind the absences at these places of the plan: the opening, with the minutes of the
/// inclusions and without those of the compensations. Other absences don't move it. `None` exactly where the balance
/// leaves the range of an `i64` behind one of them.
pub fn balance(plan: &Plan, places: &[u32], opening: i64) -> Option<i64>
    requires { All (λ place. place < length plan.now.absences) places.now }
    ensures value { IfSome result (λ minutes. minutes ≡ balance_of plan.now.absences opening places.now) }
    ensures in_range { IfSome result (λ _. StaysInRange plan.now.absences opening places.now) }
    ensures none { IfNone result (LeavesRange plan.now.absences opening places.now) }
{
    let mut minutes = opening;
    for place in places {
        let Some(after) = moved(minutes, plan.absences.get(*place)) else {
            return None;
        };
        minutes = after;
    }
    Some(minutes)
}

// The minutes of the bank behind the absence.
fn moved(minutes: i64, absence: &Absence) -> Option<i64>
    ensures value { IfSome result (λ after. after ≡
        (minutes +ℤ pos (minutes_moved inclusion absence.now)) -ℤ pos (minutes_moved compensation absence.now)) }
    ensures none { IfNone result (IsBalance
        ((minutes +ℤ pos (minutes_moved inclusion absence.now)) -ℤ pos (minutes_moved compensation absence.now)) → ⊥) }
{
    if absence.kind != BANK_MOVEMENT {
        return Some(minutes);
    }
    let by = i64::from(absence.minutes.unwrap_or(0));
    match absence.movement {
        Some(INCLUSION) => minutes.checked_add(by),
        Some(COMPENSATION) => minutes.checked_sub(by),
        Some(_) | None => Some(minutes),
    }
}
