//! Failed commits.
ghost use Rattle.std.specs.Prelude.{◌≡◌, ◌≢◌, false};
ghost use Rattle.sqlite.specs.Held.{state};
ghost use Rattle.sqlite.specs.State.{HasCleanDisk, IsUnchanged};
ghost use Rattle.store_sql.specs.States.{Spares};

use sqlite::{Alter, Connection, Error, ErrorCode};
use store_sql::StoreFault;

/// A query without a table, so that any open store prepares it: if no desk could be made there is
/// no table.
const OF_NO_TABLE: &str = "SELECT 1";

/// Why a commit failed. `NoMemory`: memory was refused to the store, which is still open, so
/// nothing was committed. It only asks the store whether it is open.
pub fn failed_commit<S: Alter>(conn: &mut Connection<S>, error: &Error) -> StoreFault
    ensures open { HasCleanDisk (state S.Store conn.new) → result ≢ StoreFault.Store
        → IsUnchanged (state S.Store conn.old) (state S.Store conn.new) }
    ensures outside { conn.old.in_transaction ≡ false → conn.new.in_transaction ≡ false }
    ensures survives { Spares S.Store conn.old conn.new }
{
    match error {
        Error::SqliteFailure(ErrorCode::OutOfMemory) => match conn.prepare(OF_NO_TABLE) {
            Ok(_) => StoreFault::NoMemory,
            Err(_) => StoreFault::Store,
        },
        _ => StoreFault::Store,
    }
}
