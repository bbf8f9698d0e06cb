//! Fields of a recorder at the keys of a TOML table.
ghost use Rattle.std.specs.Prelude.{◌≡◌};
ghost use Rattle.toml.specs.View.{table_view};
ghost use Rattle.toml_fields.specs.Answering.{Finds};
ghost use Rattle.toml_fields.specs.Table.{HasOr};
ghost use Rattle.toml_fields.specs.Fields.{HasNumber, HasLatin, HasSome, HasCpf, HasOffset, HasId, kind_number};
ghost use Rattle.std.specs.Prelude.{[]};

use crate::latin::read_latin;
use crate::table::{integer_at, is_missing, str_at};
use rep_fields::{Cpf, EmployerId, Text, read_offset};
use toml::Table;

/// The number at the key, from the least to the most.
pub fn number_at(table: &Table, key: &str, least: u32, most: u32) -> Option<u32>
    ensures { Finds (HasNumber least most (table_view table.now) key.now) result }
{
    let Some(integer) = integer_at(table, key) else {
        return None;
    };
    if integer < i64::from(least) || integer > i64::from(most) {
        return None;
    }
    Some(integer as u32)
}

/// The number at the key, from the least to the most, or the default where the key is missing.
pub fn number_or(table: &Table, key: &str, least: u32, most: u32, default: u32) -> Option<u32>
    ensures { Finds (HasOr default (HasNumber least most) (table_view table.now) key.now) result }
{
    if is_missing(table, key) {
        return Some(default);
    }
    number_at(table, key, least, most)
}

/// The text at the key, of at most `N` characters, without the spaces at its end.
pub fn text_at<const N: usize>(table: &Table, key: &str) -> Option<Text<N>>
    ensures { Finds (HasLatin N (table_view table.now) key.now) result }
{
    let Some(text) = str_at(table, key) else {
        return None;
    };
    read_latin(text)
}

/// The text at the key, of 1 to `N` characters, without the spaces at its end.
pub fn some_text_at<const N: usize>(table: &Table, key: &str) -> Option<Text<N>>
    ensures { Finds (HasSome N (table_view table.now) key.now) result }
{
    let Some(text) = text_at::<N>(table, key) else {
        return None;
    };
    if text.is_empty() {
        return None;
    }
    Some(text)
}

/// The text at the key, of at most `N` characters, without the spaces at its end; empty where the key is missing.
pub fn text_or_empty<const N: usize>(table: &Table, key: &str) -> Option<Text<N>>
    ensures { Finds (HasOr [] (HasLatin N) (table_view table.now) key.now) result }
{
    if is_missing(table, key) {
        return Some(Text::empty());
    }
    text_at(table, key)
}

/// The CPF at the key, in eleven digits.
pub fn cpf_at(table: &Table, key: &str) -> Option<Cpf>
    ensures { Finds (HasCpf (table_view table.now) key.now) result }
{
    let Some(text) = str_at(table, key) else {
        return None;
    };
    Cpf::read(text.as_bytes())
}

/// The minutes of the offset at the key, as `+hhmm` or `-hhmm`.
pub fn offset_at(table: &Table, key: &str) -> Option<i16>
    ensures { Finds (HasOffset (table_view table.now) key.now) result }
{
    let Some(text) = str_at(table, key) else {
        return None;
    };
    read_offset(text.as_bytes())
}

/// The id at the key, of the kind 1, a CNPJ in fourteen digits, or 2, a CPF in eleven.
pub fn id_at(table: &Table, key: &str, kind: u32) -> Option<EmployerId>
    ensures { Finds (λ id. (kind_number id ≡ kind) × HasId (table_view table.now) key.now id) result }
{
    let Some(text) = str_at(table, key) else {
        return None;
    };
    match kind {
        1 => EmployerId::read(b'1', text.as_bytes()),
        2 => match Cpf::read(text.as_bytes()) {
            Some(cpf) => Some(EmployerId::Person(cpf)),
            None => None,
        },
        _ => None,
    }
}
