//! Tables of rows.
ghost use Rattle.std.specs.Prelude.{map, option_map};
ghost use Rattle.toml.specs.View.{view, table_view};
ghost use Rattle.toml_fields.specs.Answering.{Finds};
ghost use Rattle.tr_plan.specs.Rows.{HasRows};

use toml::{Table, Value};
use toml_fields::{array_at, is_missing};

/// The rows of the tables at the key, none where the key is missing. `None` where something else than an array stands
/// there.
pub(crate) fn rows_at<'a>(table: &'a Table, key: &str) -> Option<&'a [Value]>
    ensures { Finds (HasRows (table_view table.now) key.now) (option_map (λ rows. map view rows.now) result) }
{
    if is_missing(table, key) {
        return Some(&[]);
    }
    match array_at(table, key) {
        Some(array) => Some(array.as_slice()),
        None => None,
    }
}
