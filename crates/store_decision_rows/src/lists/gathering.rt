//! The rows of many keys, key by key.
ghost use Rattle.std.specs.Prelude.{◌≡◌, ◌<◌, [], All, IfOk, IsTrue, OnOk, length, map};
ghost use Rattle.desk_history.specs.Calls.{is_among};
ghost use Rattle.store_decision_rows.specs.lists.Gathering.{Gathers, PutsOnly, levels_of, listings_of, revocations_of};
ghost use Rattle.store_reads.specs.Reads.{ReadsTables};
ghost use Rattle.store_sql.specs.States.{DoesInside, CommitsNothing, Spares, StaysInside};

use crate::lists::finding::{find_component, find_listed, find_revoked};
use crate::pushing::push_some;
use base::Digest;
use desk_types::{ListedKind, Listing};
use sbat::Component;
use sqlite::{Alter, Transaction};
use std::alloc::Global;
use store_reads::ReadFault;

/// Appends the keys of the listed entries of this kind and these digests.
pub(crate) fn gather_listed<S: Alter>(
    alloc: Global,
    tx: &mut Transaction<'_, S>,
    kind: ListedKind,
    digests: &[Digest],
    rows: &mut Vec<Listing>,
) -> Result<(), ReadFault>
    ensures same_reference { tx.new.conn.ghost_name ≡ tx.old.conn.ghost_name }
    ensures value { DoesInside S.Store tx.old.conn.now tx.new.conn.now result
        (λ _. ReadsTables (Gathers (listings_of kind) digests.now rows.old.items rows.new.items)) }
    ensures only { OnOk result (PutsOnly
        (λ x. (x.kind ≡ kind) × IsTrue (is_among digests.now x.digest))
        rows.old.items rows.new.items) }
    ensures inside { 0 < length digests.now
        → StaysInside S.Store tx.old.conn.now tx.new.conn.now result }
    ensures kept { CommitsNothing S.Store tx.old.conn.now tx.new.conn.now }
    ensures survives { Spares S.Store tx.old.conn.now tx.new.conn.now }
{
    for digest in digests {
        let row = find_listed(alloc, tx, kind, digest)?;
        push_some(rows, row)?;
    }
    Ok(())
}

/// Appends those of these digests of this kind that are revoked.
pub(crate) fn gather_revoked<S: Alter>(
    alloc: Global,
    tx: &mut Transaction<'_, S>,
    kind: ListedKind,
    digests: &[Digest],
    rows: &mut Vec<Digest>,
) -> Result<(), ReadFault>
    ensures same_reference { tx.new.conn.ghost_name ≡ tx.old.conn.ghost_name }
    ensures value { DoesInside S.Store tx.old.conn.now tx.new.conn.now result
        (λ _. ReadsTables (Gathers (revocations_of kind) digests.now rows.old.items
        rows.new.items)) }
    ensures only { OnOk result (PutsOnly (λ x. IsTrue (is_among digests.now x))
        rows.old.items rows.new.items) }
    ensures kept { CommitsNothing S.Store tx.old.conn.now tx.new.conn.now }
    ensures survives { Spares S.Store tx.old.conn.now tx.new.conn.now }
{
    for digest in digests {
        let row = find_revoked(alloc, tx, kind, digest)?;
        push_some(rows, row)?;
    }
    Ok(())
}

/// Appends the level's components with the names of these components.
pub(crate) fn gather_components<S: Alter>(
    alloc: Global,
    tx: &mut Transaction<'_, S>,
    named: &[Component],
    rows: &mut Vec<Component>,
) -> Result<(), ReadFault>
    ensures same_reference { tx.new.conn.ghost_name ≡ tx.old.conn.ghost_name }
    ensures value { DoesInside S.Store tx.old.conn.now tx.new.conn.now result
        (λ _. ReadsTables (Gathers levels_of named.now rows.old.items rows.new.items)) }
    ensures only { OnOk result (PutsOnly
        (λ x. IsTrue (is_among (map (λ y. y.name) named.now) x.name))
        rows.old.items rows.new.items) }
    ensures kept { CommitsNothing S.Store tx.old.conn.now tx.new.conn.now }
    ensures survives { Spares S.Store tx.old.conn.now tx.new.conn.now }
{
    for component in named {
        let row = find_component(alloc, tx, &component.name)?;
        push_some(rows, row)?;
    }
    Ok(())
}
