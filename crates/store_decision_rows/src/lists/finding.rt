//! One keyed row of the lists.
ghost use Rattle.std.specs.Prelude.{◌≡◌, IfOk, IfSome, filter};
ghost use Rattle.desk_history.specs.Writes.{is_named};
ghost use Rattle.store_decision_rows.specs.lists.Gathering.{listings_of, revocations_of};
ghost use Rattle.store_reads.specs.Reads.{ReadsTables, listed};
ghost use Rattle.store_sql.specs.States.{DoesInside, CommitsNothing, Spares, StaysInside};

use base::Digest;
use desk_types::{ListedKind, Listing};
use sbat::{Component, ComponentName};
use sqlite::{Alter, Transaction};
use std::alloc::Global;
use store_reads::{ReadFault, component_named, entry_of, revoked_of};

/// The key of the listed entry of this kind and digest, if there is one. Takes memory for the row.
pub(crate) fn find_listed<S: Alter>(
    alloc: Global,
    tx: &mut Transaction<'_, S>,
    kind: ListedKind,
    digest: &Digest,
) -> Result<Option<Listing>, ReadFault>
    ensures same_reference { tx.new.conn.ghost_name ≡ tx.old.conn.ghost_name }
    ensures value { DoesInside S.Store tx.old.conn.now tx.new.conn.now result
        (λ row. ReadsTables (λ t. listings_of kind t digest.now ≡ listed row)) }
    ensures only { IfOk result (λ row. IfSome row
        (λ x. x ≡ record { kind = kind; digest = digest.now })) }
    ensures inside { StaysInside S.Store tx.old.conn.now tx.new.conn.now result }
    ensures kept { CommitsNothing S.Store tx.old.conn.now tx.new.conn.now }
    ensures survives { Spares S.Store tx.old.conn.now tx.new.conn.now }
{
    let found = entry_of(alloc, tx, kind, digest)?;
    let Some(_entry) = found else {
        return Ok(None);
    };
    Ok(Some(Listing {
        kind,
        digest: *digest,
    }))
}

/// The digest of this kind, if it is revoked. Takes memory for the row.
pub(crate) fn find_revoked<S: Alter>(
    alloc: Global,
    tx: &mut Transaction<'_, S>,
    kind: ListedKind,
    digest: &Digest,
) -> Result<Option<Digest>, ReadFault>
    ensures same_reference { tx.new.conn.ghost_name ≡ tx.old.conn.ghost_name }
    ensures value { DoesInside S.Store tx.old.conn.now tx.new.conn.now result
        (λ row. ReadsTables (λ t. revocations_of kind t digest.now ≡ listed row)) }
    ensures only { IfOk result (λ row. IfSome row (λ x. x ≡ digest.now)) }
    ensures kept { CommitsNothing S.Store tx.old.conn.now tx.new.conn.now }
    ensures survives { Spares S.Store tx.old.conn.now tx.new.conn.now }
{
    let found = revoked_of(alloc, tx, kind, digest)?;
    let Some(_row) = found else {
        return Ok(None);
    };
    Ok(Some(*digest))
}

/// The level's component of this name, if it has one. Takes memory for the row and the name.
pub(crate) fn find_component<S: Alter>(
    alloc: Global,
    tx: &mut Transaction<'_, S>,
    name: &ComponentName,
) -> Result<Option<Component>, ReadFault>
    ensures same_reference { tx.new.conn.ghost_name ≡ tx.old.conn.ghost_name }
    ensures value { DoesInside S.Store tx.old.conn.now tx.new.conn.now result
        (λ row. ReadsTables (λ t. filter (is_named name.now) t.components ≡ listed row)) }
    ensures only { IfOk result (λ row. IfSome row (λ x. x.name ≡ name.now)) }
    ensures kept { CommitsNothing S.Store tx.old.conn.now tx.new.conn.now }
    ensures survives { Spares S.Store tx.old.conn.now tx.new.conn.now }
{
    let found = component_named(alloc, tx, name)?;
    let Some(row) = found else {
        return Ok(None);
    };
    let Ok(name) = name.clone() else {
        return Err(ReadFault::NoMemory);
    };
    Ok(Some(Component {
        name,
        generation: row.generation,
    }))
}
