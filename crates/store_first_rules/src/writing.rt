//! The writes of a call that is accepted by the first rules.
ghost use Rattle.std.specs.Prelude.{◌≡◌, IfOk};
ghost use Rattle.desk_history.specs.Writes.{all_written};
ghost use Rattle.store_sql.specs.States.{CommitsNothing, Spares, StaysInside};
ghost use Rattle.store_writes.specs.Steps.{Steps};
ghost use Rattle.store_first_rules.specs.Steps.{with_first_calls};

use desk_history::Write;
use sqlite::{Alter, Transaction, params};
use std::alloc::Global;
use store_sql::{StoreFault, update};
use store_writes::write_all;

/// Sets how many calls were accepted by the first rules (`?1`) in every row: the table has one.
pub(crate) const UPDATE_MIGRATED: &str = "UPDATE migrated SET calls = ?1";

/// The number as a u32; `Store` if it is none.
fn as_u32(number: u64) -> Result<u32, StoreFault>
    ensures { IfOk result (λ n. n ≡ number) }
{
    match u32::try_from(number) {
        Ok(number) => Ok(number),
        Err(_) => Err(StoreFault::Store),
    }
}

/// Sets how many calls were accepted by the first rules. `Store`: they are no u32.
fn set_first_calls<S: Alter>(tx: &mut Transaction<'_, S>, calls: u64) -> Result<(), StoreFault>
    ensures same_reference { tx.new.conn.ghost_name ≡ tx.old.conn.ghost_name }
    ensures value { Steps S.Store tx.old.conn.now tx.new.conn.now result
        (with_first_calls calls) }
    ensures inside { StaysInside S.Store tx.old.conn.now tx.new.conn.now result }
    ensures kept { CommitsNothing S.Store tx.old.conn.now tx.new.conn.now }
    ensures survives { Spares S.Store tx.old.conn.now tx.new.conn.now }
{
    let number = as_u32(calls)?;
    update(tx, UPDATE_MIGRATED, params![number])?;
    Ok(())
}

/// Makes the call's own writes, and sets how many calls were accepted by the first rules. Takes
/// memory for a reply's text.
pub(crate) fn write_first<S: Alter>(
    alloc: Global,
    tx: &mut Transaction<'_, S>,
    writes: &[Write],
    calls: u64,
) -> Result<(), StoreFault>
    ensures same_reference { tx.new.conn.ghost_name ≡ tx.old.conn.ghost_name }
    ensures value { Steps S.Store tx.old.conn.now tx.new.conn.now result
        (λ t. with_first_calls calls (all_written writes.now t)) }
    ensures inside { StaysInside S.Store tx.old.conn.now tx.new.conn.now result }
    ensures kept { CommitsNothing S.Store tx.old.conn.now tx.new.conn.now }
    ensures survives { Spares S.Store tx.old.conn.now tx.new.conn.now }
{
    write_all(alloc, tx, writes)?;
    set_first_calls(tx, calls)?;
    Ok(())
}
