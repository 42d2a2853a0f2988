//! Listed and revoked entries and the level's components, by key.
ghost use Rattle.std.specs.Prelude.{◌≡◌, bytes_eq, filter};
ghost use Rattle.desk_history.specs.Listing.{is_entry};
ghost use Rattle.desk_history.specs.Writes.{is_named};
ghost use Rattle.store_reads.specs.Answers.{select_revoked};
ghost use Rattle.store_reads.specs.Reads.{ReadsTables, listed, revoked_in};
ghost use Rattle.store_sql.specs.States.{DoesInside, CommitsNothing, Spares, StaysInside};

use crate::ReadFault;
use crate::reading::row_of;
use base::Digest;
use desk_history::Entry;
use desk_types::ListedKind;
use sbat::{Component, ComponentName};
use sqlite::{Alter, Transaction, params};
use std::alloc::Global;
use store_schema::{
    SELECT_COMPONENT, SELECT_LISTED, SELECT_REVOKED_CERTIFICATE, SELECT_REVOKED_DIGEST,
};

/// The listed entry of a kind and a digest, if there is one. Takes memory for the row.
pub fn entry_of<S: Alter>(
    alloc: Global,
    tx: &mut Transaction<'_, S>,
    kind: ListedKind,
    digest: &Digest,
) -> Result<Option<Entry>, ReadFault>
    ensures same_reference { tx.new.conn.ghost_name ≡ tx.old.conn.ghost_name }
    ensures value { DoesInside S.Store tx.old.conn.now tx.new.conn.now result
        (λ row. ReadsTables (λ t. filter (is_entry kind digest.now) t.listed ≡ listed row)) }
    ensures inside { StaysInside S.Store tx.old.conn.now tx.new.conn.now result }
    ensures kept { CommitsNothing S.Store tx.old.conn.now tx.new.conn.now }
    ensures survives { Spares S.Store tx.old.conn.now tx.new.conn.now }
{
    let row = row_of(
        alloc,
        tx,
        SELECT_LISTED,
        params![kind.text(), digest.as_bytes()],
    )?;
    Ok(row)
}

/// The text of the statement that finds a revoked digest of a kind.
fn revoked_text(kind: ListedKind) -> &'static str
    ensures { result.now ≡ select_revoked kind }
{
    match kind {
        ListedKind::Digest => SELECT_REVOKED_DIGEST,
        ListedKind::Certificate => SELECT_REVOKED_CERTIFICATE,
    }
}

/// The digest of an image or of a certificate, by the kind, if it is revoked. Takes memory for the
/// row.
pub fn revoked_of<S: Alter>(
    alloc: Global,
    tx: &mut Transaction<'_, S>,
    kind: ListedKind,
    digest: &Digest,
) -> Result<Option<Digest>, ReadFault>
    ensures same_reference { tx.new.conn.ghost_name ≡ tx.old.conn.ghost_name }
    ensures value { DoesInside S.Store tx.old.conn.now tx.new.conn.now result
        (λ row. ReadsTables (λ t. filter (bytes_eq digest.now) (revoked_in kind t) ≡ listed row)) }
    ensures inside { StaysInside S.Store tx.old.conn.now tx.new.conn.now result }
    ensures kept { CommitsNothing S.Store tx.old.conn.now tx.new.conn.now }
    ensures survives { Spares S.Store tx.old.conn.now tx.new.conn.now }
{
    let sql = revoked_text(kind);
    let row = row_of(alloc, tx, sql, params![digest.as_bytes()])?;
    Ok(row)
}

/// The level's component of a name, if it has one. Takes memory for the row.
pub fn component_named<S: Alter>(
    alloc: Global,
    tx: &mut Transaction<'_, S>,
    name: &ComponentName,
) -> Result<Option<Component>, ReadFault>
    ensures same_reference { tx.new.conn.ghost_name ≡ tx.old.conn.ghost_name }
    ensures value { DoesInside S.Store tx.old.conn.now tx.new.conn.now result
        (λ row. ReadsTables (λ t. filter (is_named name.now) t.components ≡ listed row)) }
    ensures inside { StaysInside S.Store tx.old.conn.now tx.new.conn.now result }
    ensures kept { CommitsNothing S.Store tx.old.conn.now tx.new.conn.now }
    ensures survives { Spares S.Store tx.old.conn.now tx.new.conn.now }
{
    let row = row_of(alloc, tx, SELECT_COMPONENT, params![name.as_str()])?;
    Ok(row)
}
