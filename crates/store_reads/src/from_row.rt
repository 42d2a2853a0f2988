//! Values of rows.
ghost use Rattle.std.specs.Prelude.{◌≡◌, IfOk};
ghost use Rattle.sqlite.specs.Order.{Row as Shown};

use crate::ReadFault;
use sqlite::Row;
use std::alloc::Global;

/// A value that a row of an answer represents.
pub trait FromRow {
    /// The columns that represent the value.
    ghost shown: { Self → Shown };

    /// The value of the row. Takes memory for texts and bytes.
    ///
    /// `Row`: a column has another kind or isn't in its form, or there are more or fewer columns.
    fn from_row(alloc: Global, row: &Row) -> Result<Self, ReadFault>
        ensures value { IfOk result (λ x. (y : Self) → row.now ≡ shown y → x ≡ y) }
        ensures only { IfOk result (λ x. row.now ≡ shown x) };
}
