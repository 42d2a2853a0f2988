//! The founding of a desk: its fifteen tables and its own rows, in one transaction.
ghost use Rattle.std.specs.Prelude.{◌≡◌, ◌≢◌, [], false, IfErr, IsTrue, OnOk, not};
ghost use Rattle.sqlite.specs.Held.{state};
ghost use Rattle.sqlite.specs.State.{HasCleanDisk, Survives};
ghost use Rattle.store_schema.specs.Names.{takes_a_desk_name};
ghost use Rattle.store_schema.specs.Tables.{no_schema};
ghost use Rattle.store_sql.specs.States.{CommitsNothing, Spares, StaysInside};
ghost use Rattle.store_schema.specs.rows.Histories.{ShowsHistory};
ghost use Rattle.store_reads.specs.Failures.{IsFailure};
ghost use Rattle.store_migration.specs.Migrations.{KeepsShown};
ghost use Rattle.store_desk.specs.Founding.{Founded, HasFoundedBeside};
ghost use Rattle.store_desk.specs.Steps.{MakesDesk};

use base::{Guid, Refusal};
use sqlite::{Alter, Connection, Transaction};
use store_schema::{CREATE_ADDED_TABLES, CREATE_TABLES, takes_a_desk_name};
use store_sql::{StoreFault, create_tables};
use store_writes::{failed_commit, put_desk};

/// Whether no table, index or view of the store has a name of the desk's tables.
pub(crate) fn names_are_free<S: Alter>(conn: &Connection<S>) -> bool
    ensures { result ≡ not (takes_a_desk_name (state S.Store conn.now).now.schema) }
{
    !takes_a_desk_name(conn.schema())
}

/// Makes the tables, after any others, and inserts the rows of a desk without calls.
fn found<S: Alter>(tx: &mut Transaction<'_, S>, owner: &Guid) -> Result<(), StoreFault>
    ensures same_reference { tx.new.conn.ghost_name ≡ tx.old.conn.ghost_name }
    ensures value { HasCleanDisk (state S.Store tx.new.conn.now)
        → IsTrue (state S.Store tx.old.conn.now).in_transaction
        → OnOk result (MakesDesk (state S.Store tx.old.conn.now) (state S.Store tx.new.conn.now)
        owner.now) }
    ensures inside { StaysInside S.Store tx.old.conn.now tx.new.conn.now result }
    ensures kept { CommitsNothing S.Store tx.old.conn.now tx.new.conn.now }
    ensures survives { Spares S.Store tx.old.conn.now tx.new.conn.now }
{
    create_tables(tx, &CREATE_TABLES)?;
    create_tables(tx, &CREATE_ADDED_TABLES)?;
    put_desk(tx, owner)?;
    Ok(())
}

/// Makes the desk in one transaction, whose commit is the last call. `NoMemory`: nothing was
/// committed. `Store`: nothing was, or everything.
pub(crate) fn found_at_once<S: Alter>(conn: &mut Connection<S>, owner: &Guid) -> Result<(), Refusal>
    requires outside { conn.old.in_transaction ≡ false }
    ensures outside { conn.new.in_transaction ≡ false }
    ensures ok { HasCleanDisk (state S.Store conn.new) → OnOk result
        (IsTrue (state S.Store conn.new).is_open
        × ((state S.Store conn.old).now.schema ≡ no_schema
        → ShowsHistory (state S.Store conn.new) owner.now [])) }
    ensures beside { HasCleanDisk (state S.Store conn.new) → OnOk result
        (HasFoundedBeside (state S.Store conn.old) (state S.Store conn.new) owner.now) }
    ensures kept { HasCleanDisk (state S.Store conn.new) → IfErr result (λ e.
        e ≢ Refusal.Store → KeepsShown (state S.Store conn.old) (state S.Store conn.new)) }
    ensures unwritten { IfErr result (λ e. e ≢ Refusal.Store → Spares S.Store conn.old conn.new) }
    ensures survives { Survives (state S.Store conn.old) (state S.Store conn.new)
        (Founded (state S.Store conn.old) owner.now) }
    ensures failed { IfErr result IsFailure }
{
    let _sound = conn.schema();
    let mut tx = conn.transaction();
    match found(&mut tx, owner) {
        Ok(()) => match tx.commit() {
            Ok(()) => Ok(()),
            Err(error) => Err(failed_commit(conn, &error).refusal()),
        },
        Err(fault) => Err(fault.refusal()),
    }
}
