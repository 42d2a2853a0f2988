//! The number of rows of a list, before they are written.
ghost use Rattle.std.specs.Prelude.{◌≡◌, ◌≤◌, IfOk};
ghost use Rattle.sqlite.specs.Held.{state};
ghost use Rattle.sqlite.specs.State.{HasCleanDisk};
ghost use Rattle.siglist.specs.Writing.{most_digests};
ghost use Rattle.store_sql.specs.States.{Spares};
ghost use Rattle.store_exports.specs.Exporting.{IsSizeOf, StaysOf};

use crate::fault::ExportFault;
use sqlite::{Alter, Connection};
use store_reads::{Counted, ReadFault, count};

/// The most digests of a list.
pub(crate) const MOST_DIGESTS: u64 = 1_000_000;

/// The count of these rows. It commits nothing.
pub(crate) fn size<S: Alter>(conn: &mut Connection<S>, what: Counted) -> Result<u64, ReadFault>
    ensures ok { HasCleanDisk (state S.Store conn.new)
        → IfOk result (IsSizeOf (state S.Store conn.old) what) }
    ensures same { StaysOf (state S.Store conn.old) (state S.Store conn.new) }
    ensures survives { Spares S.Store conn.old conn.new }
{
    if !conn.is_autocommit() {
        return Err(ReadFault::Store);
    }
    let mut tx = conn.transaction();
    let read = count(&mut tx, what);
    tx.rollback();
    read
}

/// The size of a list, as its head gives it. `Read`: it has more digests than a list may have.
pub(crate) fn head_count(counted: u64) -> Result<u32, ExportFault>
    ensures { IfOk result (λ n. (n ≡ counted) × (n ≤ most_digests)) }
{
    if counted > MOST_DIGESTS {
        return Err(ExportFault::Read(ReadFault::Row));
    }
    Ok(counted as u32)
}
