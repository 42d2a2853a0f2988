//! The sizes that a command needs: counted if they aren't known.
ghost use Rattle.std.specs.Prelude.{◌≡◌, ◌&&◌, [], ◌∷◌, IfOk, is_some, not};
ghost use Rattle.desk_history.specs.Tables.{Tables};
ghost use Rattle.store_reads.specs.Counting.{counted};
ghost use Rattle.store_reads.specs.Reads.{ReadsTables};
ghost use Rattle.desk_rules.specs.Shown as spec;
ghost use Rattle.store_decision_rows.specs.sizes.Sizes.{AreRight, known};
ghost use Rattle.store_sql.specs.States.{DoesInside, CommitsNothing, Spares, StaysInside};
ghost use Rattle.store_decision_rows.specs.Learning.{Learns};
ghost use Rattle.store_decision_rows.specs.Steps.{LearnsCalls, LearnsOf};

use crate::{KnownSizes, may_put};
use desk_rules::LimitedTable;
use desk_types::Command;
use sqlite::{Alter, Transaction};
use store_reads::{Counted, ReadFault, count};

/// The count that gives the table's size.
fn counted_of(table: LimitedTable) -> Counted
    ensures { (t : Tables) → counted result t ≡ spec.rows_in t table }
{
    match table {
        LimitedTable::People => Counted::People,
        LimitedTable::Requests => Counted::Requests,
        LimitedTable::Listed => Counted::Listed,
        LimitedTable::RevokedDigests => Counted::RevokedDigests,
        LimitedTable::RevokedCertificates => Counted::RevokedCertificates,
        LimitedTable::Components => Counted::Components,
        LimitedTable::Proposals => Counted::Proposals,
    }
}

/// The number of rows of the table.
fn count_of<S: Alter>(tx: &mut Transaction<'_, S>, table: LimitedTable) -> Result<u64, ReadFault>
    ensures same_reference { tx.new.conn.ghost_name ≡ tx.old.conn.ghost_name }
    ensures value { DoesInside S.Store tx.old.conn.now tx.new.conn.now result
        (λ n. ReadsTables (λ t. n ≡ spec.rows_in t table)) }
    ensures kept { CommitsNothing S.Store tx.old.conn.now tx.new.conn.now }
    ensures survives { Spares S.Store tx.old.conn.now tx.new.conn.now }
{
    let counted = count(tx, counted_of(table))?;
    Ok(counted)
}

/// Whether the command needs the table's size and it isn't known.
fn is_lacking(sizes: &KnownSizes, command: &Command, table: LimitedTable) -> bool
    ensures { result ≡ (spec.may_put command.now table && not (is_some (known sizes.now table))) }
{
    may_put(command, table) && sizes.size(table).is_none()
}

/// The sizes, with that of the table if the command needs it.
fn learn_one<S: Alter>(
    tx: &mut Transaction<'_, S>,
    sizes: KnownSizes,
    command: &Command,
    table: LimitedTable,
) -> Result<KnownSizes, ReadFault>
    ensures same_reference { tx.new.conn.ghost_name ≡ tx.old.conn.ghost_name }
    ensures value { DoesInside S.Store tx.old.conn.now tx.new.conn.now result
        (λ after. ReadsTables (λ t. AreRight sizes t → AreRight after t)) }
    ensures learnt { IfOk result (LearnsOf (table ∷ []) command.now sizes) }
    ensures kept { CommitsNothing S.Store tx.old.conn.now tx.new.conn.now }
    ensures survives { Spares S.Store tx.old.conn.now tx.new.conn.now }
{
    if !is_lacking(&sizes, command, table) {
        return Ok(sizes);
    }
    let counted = count_of(tx, table)?;
    Ok(sizes.with_size(table, counted))
}

/// The sizes, with those of these tables that the command needs.
fn learn_each<S: Alter>(
    tx: &mut Transaction<'_, S>,
    sizes: KnownSizes,
    command: &Command,
    tables: &[LimitedTable],
) -> Result<KnownSizes, ReadFault>
    ensures same_reference { tx.new.conn.ghost_name ≡ tx.old.conn.ghost_name }
    ensures value { DoesInside S.Store tx.old.conn.now tx.new.conn.now result
        (λ after. ReadsTables (λ t. AreRight sizes t → AreRight after t)) }
    ensures learnt { IfOk result (LearnsOf tables.now command.now sizes) }
    ensures kept { CommitsNothing S.Store tx.old.conn.now tx.new.conn.now }
    ensures survives { Spares S.Store tx.old.conn.now tx.new.conn.now }
{
    let mut known = sizes;
    for table in tables {
        known = learn_one(tx, known, command, *table)?;
    }
    Ok(known)
}

/// The sizes, with how many calls there are.
fn learn_calls<S: Alter>(
    tx: &mut Transaction<'_, S>,
    sizes: KnownSizes,
) -> Result<KnownSizes, ReadFault>
    ensures same_reference { tx.new.conn.ghost_name ≡ tx.old.conn.ghost_name }
    ensures value { DoesInside S.Store tx.old.conn.now tx.new.conn.now result
        (λ after. ReadsTables (λ t. AreRight sizes t → AreRight after t)) }
    ensures learnt { IfOk result (LearnsCalls sizes) }
    ensures kept { CommitsNothing S.Store tx.old.conn.now tx.new.conn.now }
    ensures survives { Spares S.Store tx.old.conn.now tx.new.conn.now }
{
    if sizes.calls().is_some() {
        return Ok(sizes);
    }
    let counted = count(tx, Counted::Calls)?;
    Ok(sizes.with_calls(counted))
}

/// The sizes, with those that the command needs: unknown ones are counted.
pub(crate) fn count_unknown<S: Alter>(
    tx: &mut Transaction<'_, S>,
    sizes: KnownSizes,
    command: &Command,
) -> Result<KnownSizes, ReadFault>
    ensures same_reference { tx.new.conn.ghost_name ≡ tx.old.conn.ghost_name }
    ensures value { DoesInside S.Store tx.old.conn.now tx.new.conn.now result
        (λ after. ReadsTables (λ t. AreRight sizes t → AreRight after t)) }
    ensures learnt { IfOk result (Learns command.now sizes) }
    ensures kept { CommitsNothing S.Store tx.old.conn.now tx.new.conn.now }
    ensures survives { Spares S.Store tx.old.conn.now tx.new.conn.now }
{
    let known = learn_calls(tx, sizes)?;
    let tables = [
        LimitedTable::People,
        LimitedTable::Requests,
        LimitedTable::Listed,
        LimitedTable::RevokedDigests,
        LimitedTable::RevokedCertificates,
        LimitedTable::Components,
        LimitedTable::Proposals,
    ];
    let all = learn_each(tx, known, command, &tables)?;
    Ok(all)
}
