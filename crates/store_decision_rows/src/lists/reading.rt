//! The rows of the lists for keys of every kind.
ghost use Rattle.std.specs.Prelude.{◌≡◌, ◌<◌, All, IfOk, IsTrue, length};
ghost use Rattle.desk_history.specs.Calls.{is_among};
ghost use Rattle.store_decision_rows.specs.lists.Gathering.{ShowsListed, keys_of, entry_keys};
ghost use Rattle.store_decision_rows.specs.lists.Lists.{HoldsNoOther};
ghost use Rattle.store_reads.specs.Reads.{ReadsTables};
ghost use Rattle.desk_rules.specs.Views.{ShowsLists, keys_for};
ghost use Rattle.store_sql.specs.States.{DoesInside, CommitsNothing, Spares, StaysInside};

use crate::lists::gathering::{gather_components, gather_listed, gather_revoked};
use crate::lists::keys::Digests;
use desk_rules::ListView;
use desk_types::{ListedKind, Listing};
use sbat::Component;
use sqlite::{Alter, Transaction};
use std::alloc::Global;
use store_reads::ReadFault;

/// The keys of the listed entries that have these digests.
fn listings<S: Alter>(
    alloc: Global,
    tx: &mut Transaction<'_, S>,
    listed: Digests<'_>,
) -> Result<Vec<Listing>, ReadFault>
    ensures same_reference { tx.new.conn.ghost_name ≡ tx.old.conn.ghost_name }
    ensures value { DoesInside S.Store tx.old.conn.now tx.new.conn.now result
        (λ rows. ReadsTables (ShowsListed rows.items (entry_keys listed.entry))) }
    ensures only { IfOk result (λ rows. All
        (λ row. IsTrue (is_among (keys_for (entry_keys listed.entry) row.kind) row.digest))
        rows.items) }
    ensures inside { 0 < length (entry_keys listed.entry).digests
        → StaysInside S.Store tx.old.conn.now tx.new.conn.now result }
    ensures kept { CommitsNothing S.Store tx.old.conn.now tx.new.conn.now }
    ensures survives { Spares S.Store tx.old.conn.now tx.new.conn.now }
{
    let mut rows = Vec::new(alloc);
    gather_listed(alloc, tx, ListedKind::Digest, listed.images, &mut rows)?;
    gather_listed(
        alloc,
        tx,
        ListedKind::Certificate,
        listed.certificates,
        &mut rows,
    )?;
    Ok(rows)
}

/// The rows of the lists that have these keys.
pub(crate) fn rows_of<S: Alter>(
    alloc: Global,
    tx: &mut Transaction<'_, S>,
    listed: Digests<'_>,
    revoked: Digests<'_>,
    named: &[Component],
) -> Result<ListView, ReadFault>
    ensures same_reference { tx.new.conn.ghost_name ≡ tx.old.conn.ghost_name }
    ensures value { DoesInside S.Store tx.old.conn.now tx.new.conn.now result
        (λ view. ReadsTables (λ t. ShowsLists view t
        (keys_of listed.entry revoked.entry named.now))) }
    ensures only { IfOk result (λ view.
        HoldsNoOther view (keys_of listed.entry revoked.entry named.now)) }
    ensures inside { 0 < length (entry_keys listed.entry).digests
        → StaysInside S.Store tx.old.conn.now tx.new.conn.now result }
    ensures kept { CommitsNothing S.Store tx.old.conn.now tx.new.conn.now }
    ensures survives { Spares S.Store tx.old.conn.now tx.new.conn.now }
{
    let listed = listings(alloc, tx, listed)?;
    let mut images = Vec::new(alloc);
    gather_revoked(alloc, tx, ListedKind::Digest, revoked.images, &mut images)?;
    let mut certificates = Vec::new(alloc);
    gather_revoked(
        alloc,
        tx,
        ListedKind::Certificate,
        revoked.certificates,
        &mut certificates,
    )?;
    let mut components = Vec::new(alloc);
    gather_components(alloc, tx, named, &mut components)?;
    Ok(ListView {
        listed,
        revoked_digests: images,
        revoked_certificates: certificates,
        components,
    })
}
