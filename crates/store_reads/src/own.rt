//! The desk's own row.
ghost use Rattle.std.specs.Prelude.{◌≡◌};
ghost use Rattle.sqlite.specs.Held.{state};
ghost use Rattle.sqlite.specs.State.{HasCleanDisk};
ghost use Rattle.store_reads.specs.Own.{IsOwn, TellsOwn};
ghost use Rattle.store_reads.specs.Reads.{ReadsTables};
ghost use Rattle.store_sql.specs.States.{DoesInside, CommitsNothing, Spares, StaysInside};

use crate::ReadFault;
use crate::desk_row::{OwnRow, own_row_in};
use sqlite::{Alter, Transaction};
use store_schema::SELECT_DESK;

/// What the desk's own row says.
///
/// `Row`: there is none that reads as a desk's, or more than one row.
pub fn own_row<S: Alter>(tx: &mut Transaction<'_, S>) -> Result<OwnRow, ReadFault>
    ensures same_reference { tx.new.conn.ghost_name ≡ tx.old.conn.ghost_name }
    ensures value { DoesInside S.Store tx.old.conn.now tx.new.conn.now result
        (λ own. ReadsTables (IsOwn own)) }
    ensures told { HasCleanDisk (state S.Store tx.new.conn.now)
        → TellsOwn (state S.Store tx.old.conn.now) (state S.Store tx.new.conn.now) result }
    ensures inside { StaysInside S.Store tx.old.conn.now tx.new.conn.now result }
    ensures kept { CommitsNothing S.Store tx.old.conn.now tx.new.conn.now }
    ensures survives { Spares S.Store tx.old.conn.now tx.new.conn.now }
{
    let rows = tx.query_all(SELECT_DESK, &[])?;
    match own_row_in(&rows) {
        Some(own) => Ok(own),
        None => Err(ReadFault::Row),
    }
}
