//! Pairs of marks.
ghost use Rattle.std.specs.Prelude.{◌≡◌, ◌≢◌, ◌+◌, ◌<◌, ◌≤◌, ℕ, true, false, IfOk, IfSome, IfNone};
ghost use Rattle.std.specs.List.Sorted.{IsNonDecreasingBy};
ghost use Rattle.tr_days.specs.Journey.{JourneyMark};
ghost use Rattle.tr_pair.specs.Pairs.{ArePaired, ArePlaced, IsCrowded, IsFirstCrowded, is_kept, most_pairs, pair_of, placed_as};

use crate::fault::PairFault;
use crate::placed::{Placed, Sort};
use std::alloc::Global;
use tr_days::{Mark, Root};

// The greatest number of a pair, which has three digits.
const MOST_PAIRS: u16 = 999;

/// The marks, each with what it is: the kept marks of a journey are entry and exit by turns, and an entry and the next
/// exit have one pair number, counted from 1. A dropped mark has the pair 0. The marks stand by journey day.
///
/// # Errors
///
/// `TooManyPairs` exactly where a pair number would be above 999, with the first day of such a journey. `OutOfMemory`
/// where memory is short.
pub fn pair(alloc: Global, marks: &[Mark]) -> Result<Vec<Placed>, PairFault>
    requires by_day { IsNonDecreasingBy (λ (mark : JourneyMark). mark.day) marks.now }
    ensures placed { IfOk result (λ placed. ArePlaced marks.now placed.items) }
    ensures paired { IfOk result (λ placed. ArePaired placed.items) }
    ensures room { IfOk result (λ _. (day : ℕ) → IsCrowded marks.now day → ⊥) }
    ensures too_many { (day : ℕ) → result ≡ Err (PairFault.TooManyPairs day) → IsFirstCrowded marks.now day }
{
    let mut placed = match Vec::with_capacity(alloc, marks.len()) {
        Ok(placed) => placed,
        Err(_) => return Err(PairFault::OutOfMemory),
    };
    let mut journey = Journey { day: 0, kept: 0 };
    for mark in marks {
        let number = journey.number_of(mark);
        let Some(next) = placed_by(mark, number) else {
            return Err(PairFault::TooManyPairs { day: mark.day });
        };
        placed.push_reserved(next);
        journey = Journey::behind(mark, number);
    }
    Ok(placed)
}

// The journey of a day, as far as its marks were seen: the number of the day, and how many of the marks are kept.
#[derive(Clone, Copy, Debug)]
struct Journey {
    day: u32,
    kept: u16,
}

impl Journey {
    // The number of the next mark among the kept marks of its journey, counted from 0.
    fn number_of(&self, mark: &Mark) -> u16
        ensures same { mark.now.day ≡ self.now.day → result ≡ self.now.kept }
        ensures other { mark.now.day ≢ self.now.day → result ≡ 0 }
    {
        if mark.day.number == self.day {
            self.kept
        } else {
            0
        }
    }

    // The mark's journey behind the mark, which has the number.
    fn behind(mark: &Mark, number: u16) -> Journey
        requires { is_kept mark.now ≡ true → pair_of number ≤ most_pairs }
        ensures day { result.day ≡ mark.now.day }
        ensures kept { is_kept mark.now ≡ true → result.kept ≡ number + 1 }
        ensures dropped { is_kept mark.now ≡ false → result.kept ≡ number }
    {
        let kept = if is_kept(mark) { number + 1 } else { number };
        Journey {
            day: mark.day.number,
            kept,
        }
    }
}

// What a mark is by its number among the kept marks of its journey, counted from 0. `None` exactly where it is kept and
// its pair number would be above 999.
fn placed_by(mark: &Mark, number: u16) -> Option<Placed>
    ensures placed { IfSome result (λ placed. placed ≡ placed_as mark.now number) }
    ensures room { IfSome result (λ _. is_kept mark.now ≡ true → pair_of number ≤ most_pairs) }
    ensures kept { IfNone result (is_kept mark.now ≡ true) }
    ensures above { IfNone result (most_pairs < pair_of number) }
{
    if !is_kept(mark) {
        return Some(Placed {
            mark: *mark,
            sort: Sort::Dropped,
            pair: 0,
        });
    }
    let pair = number / 2 + 1;
    if pair > MOST_PAIRS {
        return None;
    }
    let sort = if number % 2 == 0 {
        Sort::Entry
    } else {
        Sort::Exit
    };
    Some(Placed {
        mark: *mark,
        sort,
        pair,
    })
}

// Whether the mark counts.
fn is_kept(mark: &Mark) -> bool
    ensures { result ≡ is_kept mark.now }
{
    match mark.from {
        Root::Original { dropped, .. } => dropped.is_none(),
        Root::Included { .. } => true,
    }
}
