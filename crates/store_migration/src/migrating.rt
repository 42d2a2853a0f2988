//! The migration, in one transaction.
ghost use Rattle.std.specs.Prelude.{◌≡◌, ◌≢◌, ◌⊎◌, ℕ, List, false, IfErr, IsTrue, OnOk};
ghost use Rattle.sqlite.specs.Held.{state};
ghost use Rattle.sqlite.specs.State.{HasCleanDisk, Survives};
ghost use Rattle.desk_history.specs.Calls.{History};
ghost use Rattle.store_sql.specs.States.{DoesInside, CommitsNothing, Spares, StaysInside};
ghost use Rattle.store_reads.specs.Failures.{IsFailure};
ghost use Rattle.store_schema.specs.rows.Histories.{ShowsFirst, ShowsHistory};
ghost use Rattle.store_migration.specs.Migrations.{KeepsShown, Migrates, TurnsFirst};
ghost use Rattle.store_schema.specs.Names.{takes_an_added_name};

use crate::names::names_are_free;
use base::Refusal;
use sqlite::{Alter, Connection, Transaction};
use store_reads::{Counted, count};
use store_schema::make_added;
use store_sql::StoreFault;
use store_writes::{failed_commit, put_migrated, set_version};

/// Makes the three tables, inserts how many calls were accepted before, and sets the version.
fn migrate_inside<S: Alter>(tx: &mut Transaction<'_, S>) -> Result<(), Refusal>
    ensures same_reference { tx.new.conn.ghost_name ≡ tx.old.conn.ghost_name }
    ensures value { DoesInside S.Store tx.old.conn.now tx.new.conn.now result
        (λ _. TurnsFirst) }
    ensures inside { StaysInside S.Store tx.old.conn.now tx.new.conn.now result }
    ensures failed { IfErr result IsFailure }
    ensures kept { CommitsNothing S.Store tx.old.conn.now tx.new.conn.now }
    ensures survives { Spares S.Store tx.old.conn.now tx.new.conn.now }
{
    match make_added(tx) {
        Ok(()) => {}
        Err(error) => return Err(StoreFault::from(error).refusal()),
    }
    let calls = match count(tx, Counted::Calls) {
        Ok(calls) => calls,
        Err(fault) => return Err(fault.refusal()),
    };
    match put_migrated(tx, calls) {
        Ok(()) => {}
        Err(fault) => return Err(fault.refusal()),
    }
    match set_version(tx) {
        Ok(()) => Ok(()),
        Err(fault) => Err(fault.refusal()),
    }
}

/// The migration, if the names are free.
fn migrate_at_once<S: Alter>(conn: &mut Connection<S>) -> Result<(), Refusal>
    requires outside { conn.old.in_transaction ≡ false }
    ensures ok { HasCleanDisk (state S.Store conn.new) → OnOk result
        (IsTrue (state S.Store conn.new).is_open
        × ((owner : List ℕ) (cs : History) → ShowsFirst (state S.Store conn.old) owner cs
        → ShowsHistory (state S.Store conn.new) owner cs)) }
    ensures was_open { HasCleanDisk (state S.Store conn.new)
        → OnOk result (IsTrue (state S.Store conn.old).is_open) }

    ensures failed { IfErr result IsFailure }

    ensures kept { HasCleanDisk (state S.Store conn.new) → IfErr result (λ e.
        e ≢ Refusal.Store → KeepsShown (state S.Store conn.old) (state S.Store conn.new)) }
    ensures unwritten { IfErr result (λ e. e ≢ Refusal.Store → Spares S.Store conn.old conn.new) }
    ensures survives { Survives (state S.Store conn.old) (state S.Store conn.new)
        (Migrates (state S.Store conn.old)) }
    ensures outside { conn.new.in_transaction ≡ false }
{
    let mut tx = conn.transaction();
    match migrate_inside(&mut tx) {
        Ok(()) => match tx.commit() {
            Ok(()) => Ok(()),
            Err(error) => Err(failed_commit(conn, &error).refusal()),
        },
        Err(refusal) => Err(refusal),
    }
}

/// Turns the tables of version 1 that the connection shows into those of version 2, in one
/// transaction that ends with its commit: it makes the three tables that version 2 adds, inserts
/// how many calls were accepted before, and sets the version. No call is added, and no other row
/// changes. The connection must be outside a transaction (`is_autocommit`). Takes memory.
///
/// `NotADesk`: a table, an index or a view has one of the three names already. `NoMemory`: memory
/// was refused. After either, nothing was committed. `Store`: the store failed, and committed
/// nothing or everything.
pub fn migrate<S: Alter>(conn: &mut Connection<S>) -> Result<(), Refusal>
    requires outside { conn.old.in_transaction ≡ false }
    ensures ok { HasCleanDisk (state S.Store conn.new) → OnOk result
        (IsTrue (state S.Store conn.new).is_open
        × ((owner : List ℕ) (cs : History) → ShowsFirst (state S.Store conn.old) owner cs
        → ShowsHistory (state S.Store conn.new) owner cs)) }
    ensures was_open { HasCleanDisk (state S.Store conn.new)
        → OnOk result (IsTrue (state S.Store conn.old).is_open) }
    ensures free { OnOk result (takes_an_added_name (state S.Store conn.old).now.schema ≡ false) }

    ensures taken { HasCleanDisk (state S.Store conn.new) → IfErr result (λ e.
        e ≡ Refusal.NotADesk → IsTrue (state S.Store conn.old).is_open
        × IsTrue (takes_an_added_name (state S.Store conn.old).now.schema)) }
    ensures known { HasCleanDisk (state S.Store conn.new) → IfErr result (λ e.
        (owner : List ℕ) (cs : History) → ShowsFirst (state S.Store conn.old) owner cs
        → IsFailure e) }
    ensures named { IfErr result (λ e. (e ≡ Refusal.NotADesk) ⊎ IsFailure e) }

    ensures kept { HasCleanDisk (state S.Store conn.new) → IfErr result (λ e.
        e ≢ Refusal.Store → KeepsShown (state S.Store conn.old) (state S.Store conn.new)) }
    ensures unwritten { IfErr result (λ e. e ≢ Refusal.Store → Spares S.Store conn.old conn.new) }
    ensures survives { Survives (state S.Store conn.old) (state S.Store conn.new)
        (Migrates (state S.Store conn.old)) }
    ensures outside { conn.new.in_transaction ≡ false }
{
    match names_are_free(conn) {
        Ok(()) => migrate_at_once(conn),
        Err(refusal) => Err(refusal),
    }
}
