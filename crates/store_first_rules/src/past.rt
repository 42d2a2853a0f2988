//! The calls that a desk has accepted, told from its tables.
ghost use Rattle.std.specs.Prelude.{◌≡◌, ◌≢◌, ℕ, List, [], ◌∷◌, IfErr, IfOk, IfSome, false, map, pos, true};
ghost use Rattle.sqlite.specs.Held.{state};
ghost use Rattle.sqlite.specs.State.{HasCleanDisk};
ghost use Rattle.sqlite.specs.declared.types.Value.TheVariants.{Int};
ghost use Rattle.sqlite_value.specs.Order.{column};
ghost use Rattle.desk_history.specs.Calls.{History};
ghost use Rattle.store_reads.specs.Failures.{IsFailure};
ghost use Rattle.store_reads.specs.Reads.{ReadsTables};
ghost use Rattle.store_schema.specs.rows.Histories.{ShowsHistory};
ghost use Rattle.store_sql.specs.States.{CommitsNothing, DoesInside, Spares, StaysInside};
ghost use Rattle.store_first_rules.specs.Pasts.{HasFirstCalls, IsCountedIn, IsPastOf, TellsPast, second};

use base::Refusal;
use desk_rules::Sizes;
use sbat::Stamp;
use sqlite::types::ValueRef;
use sqlite::{Alter, Connection, Row, Transaction};
use store_counts::counts;
use store_decision_rows::{KnownSizes, Remembered};
use store_reads::{Counted, ReadFault, count};

/// How many calls were accepted by the first rules: every row of the table, which has one.
pub(crate) const SELECT_MIGRATED: &str = "SELECT id, calls FROM migrated ORDER BY id";

/// The number in the second column.
fn second_of(row: &Row) -> Option<u64>
    ensures { IfSome result (λ n. column row.now 1 ≡ Int (pos n)) }
{
    match row.get_ref(1) {
        Ok(ValueRef::Int(number)) => match u64::try_from(number) {
            Ok(number) => Some(number),
            Err(_) => None,
        },
        _ => None,
    }
}

/// The number in the second column of the only row.
fn calls_in(rows: &[Row]) -> Option<u64>
    ensures { IfSome result (λ n. map second rows.now ≡ Int (pos n) ∷ []) }
{
    let [row] = rows else {
        return None;
    };
    second_of(row)
}

/// Whether both are the same.
fn is_same(one: u64, other: u64) -> bool
    ensures same { result ≡ true → one ≡ other }
    ensures differ { result ≡ false → one ≢ other }
{
    one == other
}

/// How many calls were accepted by the first rules.
fn first_calls<S: Alter>(tx: &mut Transaction<'_, S>) -> Result<u64, ReadFault>
    ensures same_reference { tx.new.conn.ghost_name ≡ tx.old.conn.ghost_name }
    ensures value { DoesInside S.Store tx.old.conn.now tx.new.conn.now result
        (λ n. ReadsTables (HasFirstCalls n)) }
    ensures inside { StaysInside S.Store tx.old.conn.now tx.new.conn.now result }
    ensures kept { CommitsNothing S.Store tx.old.conn.now tx.new.conn.now }
    ensures survives { Spares S.Store tx.old.conn.now tx.new.conn.now }
{
    let rows = tx.query_all(SELECT_MIGRATED, &[])?;
    match calls_in(&rows) {
        Some(calls) => Ok(calls),
        None => Err(ReadFault::Row),
    }
}

/// The sizes of a desk's tables, and the stamp of its level.
#[derive(Clone, Copy)]
struct Counting {
    sizes: Sizes,
    stamp: Stamp,
}

/// Counts all tables that a limit counts.
fn count_all<S: Alter>(tx: &mut Transaction<'_, S>) -> Result<Counting, ReadFault>
    ensures same_reference { tx.new.conn.ghost_name ≡ tx.old.conn.ghost_name }
    ensures value { DoesInside S.Store tx.old.conn.now tx.new.conn.now result
        (λ given. ReadsTables (IsCountedIn given)) }
    ensures inside { StaysInside S.Store tx.old.conn.now tx.new.conn.now result }
    ensures kept { CommitsNothing S.Store tx.old.conn.now tx.new.conn.now }
    ensures survives { Spares S.Store tx.old.conn.now tx.new.conn.now }
{
    let counted = counts(tx)?;
    let listed = count(tx, Counted::Listed)?;
    let proposals = count(tx, Counted::Proposals)?;
    Ok(Counting {
        sizes: Sizes {
            people: counted.people,
            calls: counted.calls,
            requests: counted.requests.all,
            listed,
            revoked_digests: counted.lists.revoked.digests,
            revoked_certificates: counted.lists.revoked.certificates,
            components: counted.lists.components,
            proposals,
        },
        stamp: counted.lists.stamp,
    })
}

/// What a desk remembers whose calls were all accepted by the first rules. `None`: one wasn't.
fn tell_past<S: Alter>(tx: &mut Transaction<'_, S>) -> Result<Option<Remembered>, ReadFault>
    ensures same_reference { tx.new.conn.ghost_name ≡ tx.old.conn.ghost_name }
    ensures value { DoesInside S.Store tx.old.conn.now tx.new.conn.now result
        (λ given. ReadsTables (IsPastOf given)) }
    ensures inside { StaysInside S.Store tx.old.conn.now tx.new.conn.now result }
    ensures kept { CommitsNothing S.Store tx.old.conn.now tx.new.conn.now }
    ensures survives { Spares S.Store tx.old.conn.now tx.new.conn.now }
{
    let first = first_calls(tx)?;
    let counted = count_all(tx)?;
    if is_same(first, counted.sizes.calls) {
        return Ok(Some(Remembered {
            stamp: counted.stamp,
            sizes: KnownSizes::all(&counted.sizes),
            person: None,
        }));
    }
    Ok(None)
}

/// The same, with the refusal of a read that failed.
fn read_past<S: Alter>(tx: &mut Transaction<'_, S>) -> Result<Option<Remembered>, Refusal>
    ensures same_reference { tx.new.conn.ghost_name ≡ tx.old.conn.ghost_name }
    ensures value { DoesInside S.Store tx.old.conn.now tx.new.conn.now result
        (λ given. ReadsTables (IsPastOf given)) }
    ensures inside { StaysInside S.Store tx.old.conn.now tx.new.conn.now result }
    ensures failed { IfErr result IsFailure }
    ensures kept { CommitsNothing S.Store tx.old.conn.now tx.new.conn.now }
    ensures survives { Spares S.Store tx.old.conn.now tx.new.conn.now }
{
    match tell_past(tx) {
        Ok(given) => Ok(given),
        Err(fault) => Err(fault.refusal()),
    }
}

/// The same, in a transaction that is rolled back. Nothing is committed.
pub(crate) fn remembered_if_first<S: Alter>(
    conn: &mut Connection<S>,
) -> Result<Option<Remembered>, Refusal>
    ensures told { HasCleanDisk (state S.Store conn.new) → IfOk result
        (TellsPast (state S.Store conn.old)) }
    ensures same { HasCleanDisk (state S.Store conn.new) → (owner : List ℕ) (cs : History)
        → ShowsHistory (state S.Store conn.old) owner cs
        → ShowsHistory (state S.Store conn.new) owner cs }
    ensures failed { IfErr result IsFailure }
    ensures survives { Spares S.Store conn.old conn.new }
{
    if !conn.is_autocommit() {
        return Err(Refusal::Store);
    }
    let mut tx = conn.transaction();
    let read = read_past(&mut tx);
    tx.rollback();
    read
}
