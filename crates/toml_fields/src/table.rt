//! A TOML text as a table, and what stands at its keys.
ghost use Rattle.std.specs.Prelude.{◌≡◌, ◌↔◌, map, option_map, Contains, IfOk, IsTrue};
ghost use Rattle.std.specs.Option.{option_copied};
ghost use Rattle.toml.specs.Data.{get_member};
ghost use Rattle.toml.specs.View.{view, array_view, table_view};
ghost use Rattle.toml_fields.specs.Answering.{Finds};
ghost use Rattle.toml_fields.specs.Table.{IsTomlOf, IsNoToml, IsMissing, HasText, HasInteger, HasArray, HasSubtable, HasOnly};

use std::alloc::Global;
use toml::value::Array;
use toml::{Table, Value};

/// A text isn't read as a table.
#[derive(Clone, Copy, Debug, PartialEq, Eq)]
pub enum TomlFault {
    /// The text is no TOML document.
    NotToml,
    /// There was not enough memory.
    OutOfMemory,
}

/// The table that a text is.
///
/// # Errors
///
/// `NotToml` only where the text isn't UTF-8 or is no TOML document.
pub fn read_table(alloc: Global, text: &[u8]) -> Result<Table, TomlFault>
    ensures ok { IfOk result (λ table. IsTomlOf text.now (table_view table)) }
    ensures not_toml { result ≡ Err TomlFault.NotToml → IsNoToml text.now }
{
    match toml::table_from_slice(alloc, text) {
        Ok(table) => Ok(table),
        Err(fault) => {
            if fault.is_memory() {
                return Err(TomlFault::OutOfMemory);
            }
            Err(TomlFault::NotToml)
        }
    }
}

/// What stands at the key.
pub(crate) fn value_at<'a>(table: &'a Table, key: &str) -> Option<&'a Value>
    ensures { option_map (λ value. view value.now) result ≡ get_member key.now (table_view table.now) }
{
    table.get(key)
}

/// Whether nothing stands at the key.
pub fn is_missing(table: &Table, key: &str) -> bool
    ensures { IsTrue result ↔ IsMissing (table_view table.now) key.now }
{
    value_at(table, key).is_none()
}

/// The text at the key, where a text stands there.
pub fn str_at<'a>(table: &'a Table, key: &str) -> Option<&'a str>
    ensures { Finds (HasText (table_view table.now) key.now) (option_copied result) }
{
    match value_at(table, key) {
        Some(value) => value.as_str(),
        None => None,
    }
}

/// The integer at the key, where one stands there.
pub fn integer_at(table: &Table, key: &str) -> Option<i64>
    ensures { Finds (HasInteger (table_view table.now) key.now) result }
{
    match value_at(table, key) {
        Some(value) => value.as_integer(),
        None => None,
    }
}

/// The array at the key, where one stands there.
pub fn array_at<'a>(table: &'a Table, key: &str) -> Option<&'a Array>
    ensures { Finds (HasArray (table_view table.now) key.now)
        (option_map (λ array. array_view array.now) result) }
{
    match value_at(table, key) {
        Some(value) => value.as_array(),
        None => None,
    }
}

/// The table at the key, where one stands there.
pub fn table_at<'a>(table: &'a Table, key: &str) -> Option<&'a Table>
    ensures { Finds (HasSubtable (table_view table.now) key.now)
        (option_map (λ inner. table_view inner.now) result) }
{
    match value_at(table, key) {
        Some(value) => value.as_table(),
        None => None,
    }
}

/// Whether something stands at these keys alone.
pub fn has_only(table: &Table, keys: &[&str]) -> bool
    ensures { IsTrue result ↔ HasOnly (map (λ key. key.now) keys.now) (table_view table.now) }
{
    for key in table.keys() {
        if !is_among(keys, key.as_str()) {
            return false;
        }
    }
    true
}

// Whether the key is one of these.
fn is_among(keys: &[&str], key: &str) -> bool
    ensures { IsTrue result ↔ Contains (map (λ known. known.now) keys.now) key.now }
{
    (&*keys).contains(&key)
}
