//! The words that name a period, and the word that names a record.
ghost use Rattle.std.specs.Prelude.{◌≡◌, ℕ, Some, IfSome};
ghost use Rattle.rep_words.specs.Words.{IsNsrWord, NamesPeriod, NamesSome};

use rep_fields::{Day, get_n};

/// Days one after another, the first and the last of them included.
#[derive(Clone, Copy, Debug, PartialEq, Eq)]
pub struct Period {
    pub from: Day,
    pub to: Day,
}

/// The period from one date to another that isn't before it. `None` exactly where one is no date or they are the other way
/// round.
pub(crate) fn read_period(first: &[u8], last: &[u8]) -> Option<Period>
    ensures { NamesSome first.now last.now result }
{
    let Some(from) = Day::read(first) else {
        return None;
    };
    let Some(to) = Day::read(last) else {
        return None;
    };
    if to.number < from.number {
        return None;
    }
    Some(Period { from, to })
}

/// The number of a record that one to nine digits name. `None` exactly where the word is another, or names zero.
pub(crate) fn read_nsr(word: &[u8]) -> Option<u32>
    ensures found { IfSome result (λ nsr. IsNsrWord word.now nsr) }
    ensures only { (nsr : ℕ) → IsNsrWord word.now nsr → result ≡ Some nsr }
{
    if word.len() > 9 {
        return None;
    }
    match get_n(word) {
        Some(0) => None,
        Some(nsr) => Some(nsr as u32),
        None => None,
    }
}
