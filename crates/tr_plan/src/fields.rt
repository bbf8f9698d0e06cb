//! Values of a plan file at the keys of a row.
ghost use Rattle.std.specs.Prelude.{◌↔◌, [], pos, All, IsTrue};
ghost use Rattle.rep_fields.specs.Digits.{IsDigitByte};
ghost use Rattle.toml.specs.View.{table_view};
ghost use Rattle.toml_fields.specs.Answering.{Finds};
ghost use Rattle.toml_fields.specs.Table.{HasInteger, HasOr};
ghost use Rattle.tr_plan.specs.Fields.{HasPlain, HasDigits, HasDay, HasTime, HasStamp};

use rep_fields::{Day, Stamp, Text, read_time_of_day};
use toml::Table;
use toml_fields::{integer_at, is_missing, str_at, text_at};

const BAR: u8 = b'|';

/// The text at the key, of `least` to `N` characters without a bar, without the spaces at its end.
pub(crate) fn plain_text_at<const N: usize>(
    table: &Table,
    key: &str,
    least: usize,
) -> Option<Text<N>>
    ensures { Finds (HasPlain least N (table_view table.now) key.now) result }
{
    let Some(text) = text_at::<N>(table, key) else {
        return None;
    };
    if text.len() < least || text.bytes().contains(&BAR) {
        return None;
    }
    Some(text)
}

/// The same, of at most `N` characters; empty where the key is missing.
pub(crate) fn plain_text_or_empty<const N: usize>(table: &Table, key: &str) -> Option<Text<N>>
    ensures { Finds (HasOr [] (HasPlain 0 N) (table_view table.now) key.now) result }
{
    if is_missing(table, key) {
        return Some(Text::empty());
    }
    plain_text_at(table, key, 0)
}

/// The text at the key, of at most 14 digits, without the spaces at its end; empty where the key is missing.
pub(crate) fn digits_or_empty(table: &Table, key: &str) -> Option<Text<14>>
    ensures { Finds (HasOr [] HasDigits (table_view table.now) key.now) result }
{
    if is_missing(table, key) {
        return Some(Text::empty());
    }
    let Some(text) = text_at::<14>(table, key) else {
        return None;
    };
    if !is_digits(text.bytes()) {
        return None;
    }
    Some(text)
}

fn is_digits(text: &[u8]) -> bool
    ensures { IsTrue result ↔ All IsDigitByte text.now }
{
    text.iter().all(|byte| matches!(*byte, b'0'..=b'9'))
}

/// The day at the key.
pub(crate) fn day_at(table: &Table, key: &str) -> Option<Day>
    ensures { Finds (HasDay (table_view table.now) key.now) result }
{
    let Some(text) = str_at(table, key) else {
        return None;
    };
    Day::read(text.as_bytes())
}

/// The day at the key, or the default where the key is missing.
pub(crate) fn day_or(table: &Table, key: &str, default: Day) -> Option<Day>
    ensures { Finds (HasOr default HasDay (table_view table.now) key.now) result }
{
    if is_missing(table, key) {
        return Some(default);
    }
    day_at(table, key)
}

/// The minute of the day at the key, or 0 where the key is missing.
pub(crate) fn time_or_midnight(table: &Table, key: &str) -> Option<u32>
    ensures { Finds (HasOr 0 HasTime (table_view table.now) key.now) result }
{
    if is_missing(table, key) {
        return Some(0);
    }
    let Some(text) = str_at(table, key) else {
        return None;
    };
    read_time_of_day(text.as_bytes())
}

/// The stamp at the key.
pub(crate) fn stamp_at(table: &Table, key: &str) -> Option<Stamp>
    ensures { Finds (HasStamp (table_view table.now) key.now) result }
{
    let Some(text) = str_at(table, key) else {
        return None;
    };
    Stamp::read(text.as_bytes())
}

/// The integer at the key, or 0 where the key is missing.
pub(crate) fn integer_or_zero(table: &Table, key: &str) -> Option<i64>
    ensures { Finds (HasOr (pos 0) HasInteger (table_view table.now) key.now) result }
{
    if is_missing(table, key) {
        return Some(0);
    }
    integer_at(table, key)
}
