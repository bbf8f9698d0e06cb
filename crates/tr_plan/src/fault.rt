//! Why a text is no plan.
use rep_fields::Cpf;
use thiserror::Error;

/// A text isn't read as a plan. Of several faults the first is told: tables by number, rows by place, keys by number, and
/// then the rules across rows.
#[derive(Clone, Copy, Debug, PartialEq, Eq, Error)]
pub enum PlanFault {
    /// The text is no TOML document.
    #[error("not a TOML document")]
    PlanText,
    /// A key is missing, unknown, of another kind or off its grammar.
    ///
    /// Tables: 1 `program`, 2 `schedule`, 3 `link`, 4 `disregard`, 5 `include`, 6 `absence`, and 0 for another one.
    /// Places of rows are counted from 1; the place is 0 in the tables 0 and 1, and where a table isn't an array. Keys have
    /// their number in the row; the key is 0 where it isn't known, where a row isn't a table, and where a table isn't an
    /// array. A missing `program` is its key 1.
    #[error("key {key} of row {place} of table {table} is missing, unknown or not as it must be")]
    PlanField { table: u8, place: u32, key: u8 },
    /// The link at the place, counted from 1, is the first whose schedule code no schedule has.
    #[error("link {place} has a schedule code that no schedule has")]
    UnknownCode { place: u32 },
    /// The CPF is that of the first link whose dates meet those of an earlier link of the same CPF.
    #[error("two links of CPF {number} have a day in common", number = .cpf.number)]
    Overlap { cpf: Cpf },
    /// There was not enough memory.
    #[error("not enough memory")]
    OutOfMemory,
}
