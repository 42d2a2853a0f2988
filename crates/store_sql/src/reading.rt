//! Queries inside a transaction, which change nothing.
ghost use Rattle.std.specs.Prelude.{◌≡◌, ℕ, IfOk};
ghost use Rattle.sqlite.specs.Values.{bound};
ghost use Rattle.store_sql.specs.Effects.{Counts, Selects};
ghost use Rattle.store_sql.specs.Queries.{number_row};
ghost use Rattle.store_sql.specs.States.{DoesInside, CommitsNothing, Spares, StaysInside};

use sqlite::types::ValueRef;
use sqlite::{Alter, Error, Row, Transaction};

/// `SELECT .. FROM .. WHERE .. ORDER BY ..`: the rows, all at once.
pub fn select<S: Alter>(
    tx: &mut Transaction<'_, S>,
    sql: &str,
    params: &[ValueRef<'_>],
) -> Result<Vec<Row>, Error>
    ensures same_reference { tx.new.conn.ghost_name ≡ tx.old.conn.ghost_name }
    ensures value { DoesInside S.Store tx.old.conn.now tx.new.conn.now result
        (λ rows old new. Selects sql.now (bound params.now) old new rows.items) }
    ensures inside { StaysInside S.Store tx.old.conn.now tx.new.conn.now result }
    ensures kept { CommitsNothing S.Store tx.old.conn.now tx.new.conn.now }
    ensures survives { Spares S.Store tx.old.conn.now tx.new.conn.now }
{
    let selected = tx.query_all(sql, params)?;
    Ok(selected)
}

/// The integer of the only row.
fn only_number(rows: &[Row]) -> Result<u64, Error>
    ensures { IfOk result (λ n. (m : ℕ) → rows.now ≡ number_row m → n ≡ m) }
{
    let Some(row) = rows.first() else {
        return Err(Error::QueryReturnedNoRows);
    };
    row.get(0)
}

/// `SELECT count(*) FROM .. WHERE ..`. Every row of the table is visited.
pub fn count<S: Alter>(
    tx: &mut Transaction<'_, S>,
    sql: &str,
    params: &[ValueRef<'_>],
) -> Result<u64, Error>
    ensures same_reference { tx.new.conn.ghost_name ≡ tx.old.conn.ghost_name }
    ensures value { DoesInside S.Store tx.old.conn.now tx.new.conn.now result
        (λ n old new. Counts sql.now (bound params.now) old new n) }
    ensures inside { StaysInside S.Store tx.old.conn.now tx.new.conn.now result }
    ensures kept { CommitsNothing S.Store tx.old.conn.now tx.new.conn.now }
    ensures survives { Spares S.Store tx.old.conn.now tx.new.conn.now }
{
    let rows = tx.query_all(sql, params)?;
    let counted = only_number(&rows)?;
    Ok(counted)
}
