//! The values of a query's answer, inside a transaction.
ghost use Rattle.std.specs.Prelude.{◌≡◌, IfOk};
ghost use Rattle.sqlite.specs.Values.{bound};
ghost use Rattle.store_reads.specs.Reads.{AreRead, Finds, listed};
ghost use Rattle.store_sql.specs.States.{DoesInside, CommitsNothing, Spares, StaysInside};

use crate::ReadFault;
use crate::from_row::FromRow;
use sqlite::types::ValueRef;
use sqlite::{Alter, Row, Transaction};
use std::alloc::Global;
use store_sql::select;

/// The values of the rows, in order.
fn values_of<T: FromRow + Drop>(alloc: Global, rows: &[Row]) -> Result<Vec<T>, ReadFault>
    ensures { IfOk result (λ values. AreRead T.FromRow.shown rows.now values.items) }
{
    let mut values = Vec::new(alloc);
    for row in rows {
        let value = T::from_row(alloc, row)?;
        if values.push(value).is_err() {
            return Err(ReadFault::NoMemory);
        }
    }
    Ok(values)
}

/// The values of the answer's rows, in order.
pub(crate) fn rows_of<S: Alter, T: FromRow + Drop>(
    alloc: Global,
    tx: &mut Transaction<'_, S>,
    sql: &str,
    params: &[ValueRef<'_>],
) -> Result<Vec<T>, ReadFault>
    ensures same_reference { tx.new.conn.ghost_name ≡ tx.old.conn.ghost_name }
    ensures value { DoesInside S.Store tx.old.conn.now tx.new.conn.now result
        (λ values. Finds T.FromRow.shown sql.now (bound params.now) values.items) }
    ensures inside { StaysInside S.Store tx.old.conn.now tx.new.conn.now result }
    ensures kept { CommitsNothing S.Store tx.old.conn.now tx.new.conn.now }
    ensures survives { Spares S.Store tx.old.conn.now tx.new.conn.now }
{
    let rows = select(tx, sql, params)?;
    let values = values_of(alloc, &rows)?;
    Ok(values)
}

/// The value of the answer's only row, or `None` if it has none. `Row`: it has more.
pub(crate) fn row_of<S: Alter, T: FromRow + Drop>(
    alloc: Global,
    tx: &mut Transaction<'_, S>,
    sql: &str,
    params: &[ValueRef<'_>],
) -> Result<Option<T>, ReadFault>
    ensures same_reference { tx.new.conn.ghost_name ≡ tx.old.conn.ghost_name }
    ensures value { DoesInside S.Store tx.old.conn.now tx.new.conn.now result
        (λ value. Finds T.FromRow.shown sql.now (bound params.now) (listed value)) }
    ensures inside { StaysInside S.Store tx.old.conn.now tx.new.conn.now result }
    ensures kept { CommitsNothing S.Store tx.old.conn.now tx.new.conn.now }
    ensures survives { Spares S.Store tx.old.conn.now tx.new.conn.now }
{
    let mut values = rows_of(alloc, tx, sql, params)?;
    let value = values.pop();
    if !values.is_empty() {
        return Err(ReadFault::Row);
    }
    Ok(value)
}
