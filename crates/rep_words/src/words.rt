ghost use Rattle.std.specs.Prelude.{◌≡◌, ◌∷◌, [], ℕ, ℤ, Option, Some, map, string_bytes, IfSome, IsTrue};
ghost use Rattle.rep_words.specs.Words.{Asks, IsCreate, IsDrill, IsExtract, IsPrint, IsReceipt, IsRun};
ghost use Rattle.rep_words.specs.declared.period.Period.{Period as ThePeriod};

use crate::period::{Period, read_nsr, read_period};
use rep_fields::read_offset;

/// What the words ask for.
#[derive(Clone, Copy, Debug, PartialEq, Eq)]
pub enum Asked {
    /// `print LANE OUT ZONE`, and the offset from UTC, in minutes, that ZONE is.
    Print { zone: i16 },
    /// `create SITE JOURNAL`.
    Create,
    /// `run SITE JOURNAL LANE`.
    Run,
    /// `extract SITE JOURNAL FROM TO OUT`, and the period that FROM and TO are, if they are one.
    Extract { period: Option<Period> },
    /// `receipt SITE JOURNAL NSR`, and the number of the record that NSR is.
    Receipt { nsr: u32 },
    /// `drill SCHEDULE`.
    Drill,
}

/// What the words ask for. `None` exactly where they are those of no command.
pub fn asked_of(words: &[String]) -> Option<Asked>
    ensures found { IfSome result (λ asked. Asks (map string_bytes words.now) asked) }
    ensures only { (asked : Asked) → Asks (map string_bytes words.now) asked → result ≡ Some asked }
{
    if let Some(zone) = print_zone(words) {
        return Some(Asked::Print { zone });
    }
    if is_create(words) {
        return Some(Asked::Create);
    }
    if is_run(words) {
        return Some(Asked::Run);
    }
    if let Some(period) = extract_period(words) {
        return Some(Asked::Extract { period });
    }
    if let Some(nsr) = receipt_nsr(words) {
        return Some(Asked::Receipt { nsr });
    }
    if is_drill(words) {
        return Some(Asked::Drill);
    }
    None
}

/// The offset from UTC that the words of `print LANE OUT ZONE` name, in minutes. `None` exactly where they are others.
fn print_zone(words: &[String]) -> Option<i16>
    ensures found { IfSome result (λ zone. IsPrint (map string_bytes words.now) zone) }
    ensures only { (zone : ℤ) → IsPrint (map string_bytes words.now) zone → result ≡ Some zone }
{
    match words {
        [command, lane, out, zone] => {
            if command.as_str() == "print" && !lane.is_empty() && !out.is_empty() {
                read_offset(zone.as_bytes())
            } else {
                None
            }
        }
        _ => None,
    }
}

/// Whether the words are those of `create SITE JOURNAL`.
fn is_create(words: &[String]) -> bool
    ensures found { IsTrue result → IsCreate (map string_bytes words.now) }
    ensures only { IsCreate (map string_bytes words.now) → IsTrue result }
{
    match words {
        [command, site, journal] => {
            command.as_str() == "create" && !site.is_empty() && !journal.is_empty()
        }
        _ => false,
    }
}

/// Whether the words are those of `run SITE JOURNAL LANE`.
fn is_run(words: &[String]) -> bool
    ensures found { IsTrue result → IsRun (map string_bytes words.now) }
    ensures only { IsRun (map string_bytes words.now) → IsTrue result }
{
    match words {
        [command, site, journal, lane] => {
            command.as_str() == "run" && !site.is_empty() && !journal.is_empty() && !lane.is_empty()
        }
        _ => false,
    }
}

/// The period that the words of `extract SITE JOURNAL FROM TO OUT` name, if they name one. `None` exactly where they are
/// others.
fn extract_period(words: &[String]) -> Option<Option<Period>>
    ensures found { IfSome result (λ period. IsExtract (map string_bytes words.now) period) }
    ensures only { (period : Option ThePeriod) → IsExtract (map string_bytes words.now) period → result ≡ Some period }
{
    match words {
        [command, site, journal, first, last, out] => {
            if command.as_str() == "extract"
                && !site.is_empty()
                && !journal.is_empty()
                && !out.is_empty()
            {
                Some(read_period(first.as_bytes(), last.as_bytes()))
            } else {
                None
            }
        }
        _ => None,
    }
}

/// The number that the words of `receipt SITE JOURNAL NSR` name. `None` exactly where they are others.
fn receipt_nsr(words: &[String]) -> Option<u32>
    ensures found { IfSome result (λ nsr. IsReceipt (map string_bytes words.now) nsr) }
    ensures only { (nsr : ℕ) → IsReceipt (map string_bytes words.now) nsr → result ≡ Some nsr }
{
    match words {
        [command, site, journal, number] => {
            if command.as_str() == "receipt" && !site.is_empty() && !journal.is_empty() {
                read_nsr(number.as_bytes())
            } else {
                None
            }
        }
        _ => None,
    }
}

/// Whether the words are those of `drill SCHEDULE`.
fn is_drill(words: &[String]) -> bool
    ensures found { IsTrue result → IsDrill (map string_bytes words.now) }
    ensures only { IsDrill (map string_bytes words.now) → IsTrue result }
{
    match words {
        [command, schedule] => command.as_str() == "drill" && !schedule.is_empty(),
        _ => false,
    }
}
