//! The desk that a store holds, found and brought up when it is opened.
ghost use Rattle.std.specs.Prelude.{◌≡◌, ◌≢◌, ◌⊎◌, ℕ, List, codes, false, pos};
ghost use Rattle.std.specs.Prelude.{IfErr, IfOk, IsTrue, OnOk, is_some};
ghost use Rattle.sqlite.specs.Held.{state};
ghost use Rattle.sqlite.specs.State.{HasCleanDisk, IsUnchanged, Survives};
ghost use Rattle.sqlite_schema.specs.Names.{table_named};
ghost use Rattle.desk_history.specs.Calls.{History};
ghost use Rattle.store_sql.specs.States.{CommitsNothing, Spares};
ghost use Rattle.store_schema.specs.rows.Histories.{HoldsFirst, HoldsHistory, ShowsFirst, ShowsHistory};
ghost use Rattle.store_migration.specs.Migrations.{KeepsShown};
ghost use Rattle.store_desk.specs.Owners.{FindsAnother, IsAnother, IsAsked, IsExpected};
ghost use Rattle.store_desk.specs.Steps.{Brings, FindsKnown, FindsNone, FindsOther, IsOwnOf};
ghost use Rattle.store_desk.specs.Steps.{IsReadRefusal, OnlyLooks, RefusesColumns, RefusesText};
ghost use Rattle.store_desk.specs.Steps.{TellsInside, TellsOutside};

use base::{Guid, Refusal};
use sqlite::{Alter, Connection, Error, Transaction};
use store_migration::migrate;
use store_reads::{OwnRow, ReadFault, own_row};
use store_schema::{FIRST_VERSION, SELECT_DESK, VERSION};
use store_sql::{StoreFault, catalog_lists_one_schema};

/// Whether the store has a table `desk`.
fn has_desk<S: Alter>(conn: &Connection<S>) -> bool
    ensures { result ≡ is_some (table_named (state S.Store conn.now).now.schema (codes "desk")) }
{
    conn.schema().table_named("desk".as_bytes()).is_some()
}

/// Whether the version in a row is this one.
fn is_version(version: i64, known: u32) -> bool
    ensures same { IsTrue result → version ≡ pos known }
    ensures other { result ≡ false → version ≢ pos known }
{
    version == i64::from(known)
}

/// Whether an owner is expected, and this is another.
fn is_another(owner: &Guid, expected: Option<Guid>) -> bool
    ensures another { IsTrue result → IsAnother expected owner.now }
    ensures expected { result ≡ false → IsExpected expected owner.now }
{
    match expected {
        Some(expected) => *owner != expected,
        None => false,
    }
}

/// Whether the store's tables lack a table or a column that a text names.
fn refuses_text(error: &Error) -> bool
    ensures { IsTrue result → RefusesText error.now }
{
    match error {
        Error::SqlInputError(_) => true,
        _ => false,
    }
}

/// Checks that the desk's row can be selected. `NotADesk`: the store doesn't have its table with
/// these columns.
fn ask_columns<S: Alter>(tx: &mut Transaction<'_, S>) -> Result<(), Refusal>
    ensures same_reference { tx.new.conn.ghost_name ≡ tx.old.conn.ghost_name }
    ensures same { HasCleanDisk (state S.Store tx.new.conn.now)
        → OnOk result (IsUnchanged (state S.Store tx.old.conn.now)
        (state S.Store tx.new.conn.now)) }
    ensures refused { HasCleanDisk (state S.Store tx.new.conn.now)
        → IfErr result (RefusesColumns (state S.Store tx.old.conn.now)) }
    ensures named { IfErr result IsReadRefusal }
    ensures kept { CommitsNothing S.Store tx.old.conn.now tx.new.conn.now }
    ensures survives { Spares S.Store tx.old.conn.now tx.new.conn.now }
{
    let error = match tx.prepare(SELECT_DESK) {
        Ok(_) => return Ok(()),
        Err(error) => error,
    };
    if refuses_text(&error) {
        return Err(Refusal::NotADesk);
    }
    Err(StoreFault::from(error).refusal())
}

/// What the desk's own row says. `NotADesk`: no such row reads as a desk's.
fn own_row_of<S: Alter>(tx: &mut Transaction<'_, S>) -> Result<OwnRow, Refusal>
    ensures same_reference { tx.new.conn.ghost_name ≡ tx.old.conn.ghost_name }
    ensures told { HasCleanDisk (state S.Store tx.new.conn.now)
        → TellsInside S.Store tx.old.conn.now result }
    ensures named { IfErr result IsReadRefusal }
    ensures kept { CommitsNothing S.Store tx.old.conn.now tx.new.conn.now }
    ensures survives { Spares S.Store tx.old.conn.now tx.new.conn.now }
{
    match ask_columns(tx) {
        Ok(()) => {}
        Err(refusal) => return Err(refusal),
    }
    match own_row(tx) {
        Ok(own) => Ok(own),
        Err(ReadFault::Row) => Err(Refusal::NotADesk),
        Err(ReadFault::NoMemory) => Err(Refusal::NoMemory),
        Err(ReadFault::Store) => Err(Refusal::Store),
    }
}

/// The same, outside a transaction. It commits nothing.
fn read_own_row<S: Alter>(conn: &mut Connection<S>) -> Result<OwnRow, Refusal>
    requires outside { conn.old.in_transaction ≡ false }
    ensures outside { conn.new.in_transaction ≡ false }
    ensures looks { OnlyLooks S.Store conn.old conn.new }
    ensures told { HasCleanDisk (state S.Store conn.new)
        → TellsInside S.Store conn.old result }
    ensures named { IfErr result IsReadRefusal }
{
    let _settled = conn.is_autocommit();
    let mut tx = conn.transaction();
    let read = own_row_of(&mut tx);
    tx.rollback();
    read
}

/// The same, of a table `desk`: a view of that name is no desk's.
fn read_table<S: Alter>(conn: &mut Connection<S>) -> Result<OwnRow, Refusal>
    requires outside { conn.old.in_transaction ≡ false }
    ensures outside { conn.new.in_transaction ≡ false }
    ensures looks { OnlyLooks S.Store conn.old conn.new }
    ensures told { HasCleanDisk (state S.Store conn.new)
        → TellsOutside S.Store conn.old result }
    ensures named { IfErr result IsReadRefusal }
{
    let is_there = has_desk(conn);
    match read_own_row(conn) {
        Ok(own) => {
            if is_there {
                Ok(own)
            } else {
                Err(Refusal::NotADesk)
            }
        }
        Err(refusal) => Err(refusal),
    }
}

/// Finds a desk of version 2, or migrates one of version 1, by one commit, the last call. Returns
/// what its row said before.
///
/// `NotADesk`: no row reads as a desk's, or a name that version 2 adds is taken. `Owner`: the row
/// has another owner than the one that is expected, whatever its version; nothing was committed.
/// `Version`: the desk is of another version. `NoMemory`: nothing was committed. `Store`: nothing was, or everything.
pub(crate) fn find_or_migrate<S: Alter>(
    conn: &mut Connection<S>,
    expected: Option<Guid>,
) -> Result<OwnRow, Refusal>
    requires outside { conn.old.in_transaction ≡ false }
    ensures outside { conn.new.in_transaction ≡ false }
    ensures second { HasCleanDisk (state S.Store conn.new) → (owner : List ℕ) (cs : History)
        → ShowsHistory (state S.Store conn.old) owner cs
        → ShowsHistory (state S.Store conn.new) owner cs }
    ensures first { HasCleanDisk (state S.Store conn.new) → OnOk result
        ((owner : List ℕ) (cs : History) → ShowsFirst (state S.Store conn.old) owner cs
        → IsTrue (state S.Store conn.new).is_open
        × ShowsHistory (state S.Store conn.new) owner cs) }

    ensures read { HasCleanDisk (state S.Store conn.new)
        → OnOk result (FindsKnown S.Store conn.old) }
    ensures own { HasCleanDisk (state S.Store conn.new)
        → IfOk result (IsOwnOf (state S.Store conn.old)) }
    ensures other { HasCleanDisk (state S.Store conn.new) → IfErr result (λ e.
        e ≡ Refusal.Version → FindsOther S.Store conn.old) }
    ensures unread { HasCleanDisk (state S.Store conn.new) → IfErr result (λ e.
        e ≡ Refusal.NotADesk → FindsNone S.Store conn.old) }
    ensures expected { IfOk result (λ own. IsExpected expected own.owner) }
    ensures another { HasCleanDisk (state S.Store conn.new) → IfErr result (λ e.
        e ≡ Refusal.Owner → FindsAnother S.Store conn.old expected) }
    ensures open { HasCleanDisk (state S.Store conn.new)
        → OnOk result (IsTrue (state S.Store conn.old).is_open) }
    ensures looked { HasCleanDisk (state S.Store conn.new) → IfErr result (λ e.
        (e ≡ Refusal.NotADesk) ⊎ (e ≡ Refusal.Version)
        → IsTrue (state S.Store conn.old).is_open) }
    ensures named { IfErr result (λ e.
        IsAsked expected e ⊎ ((e ≡ Refusal.Version) ⊎ IsReadRefusal e)) }

    ensures kept { HasCleanDisk (state S.Store conn.new) → IfErr result (λ e.
        e ≢ Refusal.Store → KeepsShown (state S.Store conn.old) (state S.Store conn.new)) }
    ensures unwritten { IfErr result (λ e. e ≢ Refusal.Store → Spares S.Store conn.old conn.new) }
    ensures survives { Survives (state S.Store conn.old) (state S.Store conn.new)
        (Brings (state S.Store conn.old)) }
{
    let own = match read_table(conn) {
        Ok(own) => own,
        Err(refusal) => return Err(refusal),
    };
    if is_another(&own.owner, expected) {
        return Err(Refusal::Owner);
    }
    if is_version(own.version, VERSION) {
        return Ok(own);
    }
    if !is_version(own.version, FIRST_VERSION) {
        return Err(Refusal::Version);
    }
    match migrate(conn) {
        Ok(()) => Ok(own),
        Err(refusal) => Err(refusal),
    }
}

/// A connection outside a transaction shows the history whose tables, of either version, are its
/// last commit: the catalog in them lists the desk's tables, and no other schema has that catalog.
pub fn found_is_shown<S: Alter>(conn: &Connection<S>)
    requires outside { conn.now.in_transaction ≡ false }
    ensures second { (owner : List ℕ) (cs : History)
        → HoldsHistory (state S.Store conn.now).committed.trees owner cs
        → ShowsHistory (state S.Store conn.now) owner cs }
    ensures first { (owner : List ℕ) (cs : History)
        → HoldsFirst (state S.Store conn.now).committed.trees owner cs
        → ShowsFirst (state S.Store conn.now) owner cs }
{
    catalog_lists_one_schema();
    let _sound = conn.schema();
    let _settled = conn.is_autocommit();
}
