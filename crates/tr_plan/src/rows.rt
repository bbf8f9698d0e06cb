//! Lists of rows.
ghost use Rattle.std.specs.Prelude.{◌≡◌, ◌↔◌, ◌<◌, ◌≤◌, length, slice_index_or, IfOk, IfErr, IfSome, IsSome, IsTrue, []};
ghost use Rattle.tr_plan.specs.Rows.{most_rows};
ghost use Rattle.tr_plan.specs.declared.fault.PlanFault.{PlanFault};

use crate::fault::PlanFault;
use std::marker::Model;

// The most rows of a list, so that each count of an AEJ's lines fits its nine digits.
pub(crate) const MOST_ROWS: usize = 268_435_456;

/// Rows in their order, of at most 268,435,456.
#[derive(Debug, Drop)]
pub struct Rows<T> {
    rows: Vec<T>,
}

impl<T> Model for Rows<T> {
    ghost use Rattle.std.specs.Prelude.{List, length, ◌≤◌};
    ghost use Rattle.tr_plan.specs.Rows.{most_rows};
    ghost use Rattle.std.specs.Coded.{coded_list};

    ghost Value = { List T };

    ghost coded = { coded_list T.code };

    ghost view = { λ r. r.rows.items };

    ghost invariant = { λ r. length r.rows.items ≤ most_rows };
}

impl<T: Drop> Rows<T> {
    /// These rows. `None` exactly where there are too many.
    pub fn make(rows: Vec<T>) -> Option<Rows<T>>
        ensures succeeds { IsSome result ↔ (length rows.items ≤ most_rows) }
        ensures value { IfSome result (λ made. made ≡ rows.items) }
    {
        if rows.len() > MOST_ROWS {
            return None;
        }
        Some(Rows { rows })
    }
}

impl<T> Rows<T> {
    /// The rows as a `Vec`, which takes no memory.
    pub fn into_vec(self) -> Vec<T>
        ensures { result.items ≡ self }
    {
        self.rows
    }

    /// The rows as a slice.
    pub fn as_slice(&self) -> &[T]
        ensures { result.now ≡ self.now }
    {
        &self.rows
    }

    /// How many rows there are: at most 268,435,456.
    pub fn len(&self) -> u32
        ensures count { result ≡ length self.now }
        ensures in_range { result ≤ most_rows }
    {
        self.rows.len() as u32
    }

    /// Whether there is no row.
    pub fn is_empty(&self) -> bool
        ensures { IsTrue result ↔ (self.now ≡ []) }
    {
        self.rows.is_empty()
    }

    /// The row at the place, counted from 0.
    pub fn get(&self, place: u32) -> &T
        requires within { place < length self.now }
        ensures row { result.now ≡ slice_index_or self.now place result.now }
    {
        &self.rows[place as usize]
    }
}

/// These rows, where there aren't too many.
pub(crate) fn rows_of<T: Drop>(rows: Vec<T>) -> Result<Rows<T>, PlanFault>
    ensures ok { IfOk result (λ made. made ≡ rows.items) }
    ensures memory { IfErr result (λ fault. fault ≡ PlanFault.OutOfMemory) }
{
    match Rows::make(rows) {
        Some(made) => Ok(made),
        None => Err(PlanFault::OutOfMemory),
    }
}
