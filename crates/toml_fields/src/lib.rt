//! The keys of a TOML table as fields of a recorder: texts of ISO 8859-1, numbers in a range, ids, offsets. Each reader
//! answers `None` exactly where the key is missing, holds a value of another kind, or one that is off the grammar.
#![tactic(auto)]

mod fields;
mod latin;
mod table;

pub use fields::{
    cpf_at, id_at, number_at, number_or, offset_at, some_text_at, text_at, text_or_empty,
};
pub use latin::read_latin;
pub use table::{
    TomlFault, array_at, has_only, integer_at, is_missing, read_table, str_at, table_at,
};
