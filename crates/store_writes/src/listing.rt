//! Listed entries and revoked digests.
ghost use Rattle.std.specs.Prelude.{◌≡◌};
ghost use Rattle.desk_history.specs.declared.write.Write.TheVariants as writes;
ghost use Rattle.desk_types.specs.declared.kind.ListedKind.TheVariants as kinds;
ghost use Rattle.desk_history.specs.Writes.{with_revoked, written};
ghost use Rattle.store_sql.specs.States.{CommitsNothing, Spares, StaysInside};
ghost use Rattle.store_writes.specs.Steps.{Steps};

use base::Digest;
use desk_history::Entry;
use desk_types::{ListedKind, Listing};
use sqlite::{Alter, Transaction, params};
use store_schema::{
    DELETE_LISTED, INSERT_LISTED, INSERT_REVOKED_CERTIFICATE, INSERT_REVOKED_DIGEST,
};
use store_sql::{StoreFault, delete, insert};

/// Inserts a listed entry.
pub(crate) fn put_entry<S: Alter>(
    tx: &mut Transaction<'_, S>,
    entry: &Entry,
) -> Result<(), StoreFault>
    ensures same_reference { tx.new.conn.ghost_name ≡ tx.old.conn.ghost_name }
    ensures value { Steps S.Store tx.old.conn.now tx.new.conn.now result
        (written (writes.List entry.now)) }
    ensures inside { StaysInside S.Store tx.old.conn.now tx.new.conn.now result }
    ensures kept { CommitsNothing S.Store tx.old.conn.now tx.new.conn.now }
    ensures survives { Spares S.Store tx.old.conn.now tx.new.conn.now }
{
    insert(
        tx,
        INSERT_LISTED,
        params![
            entry.kind.text(),
            entry.digest.as_bytes(),
            entry.body.as_slice()
        ],
    )?;
    Ok(())
}

/// Deletes the listed entry of a kind and digest.
pub(crate) fn unlist<S: Alter>(
    tx: &mut Transaction<'_, S>,
    listing: &Listing,
) -> Result<(), StoreFault>
    ensures same_reference { tx.new.conn.ghost_name ≡ tx.old.conn.ghost_name }
    ensures value { Steps S.Store tx.old.conn.now tx.new.conn.now result
        (written (writes.Unlist listing.now)) }
    ensures inside { StaysInside S.Store tx.old.conn.now tx.new.conn.now result }
    ensures kept { CommitsNothing S.Store tx.old.conn.now tx.new.conn.now }
    ensures survives { Spares S.Store tx.old.conn.now tx.new.conn.now }
{
    delete(
        tx,
        DELETE_LISTED,
        params![listing.kind.text(), listing.digest.as_bytes()],
    )?;
    Ok(())
}

/// Inserts a revoked digest of an image.
fn revoke_digest<S: Alter>(tx: &mut Transaction<'_, S>, digest: &Digest) -> Result<(), StoreFault>
    ensures same_reference { tx.new.conn.ghost_name ≡ tx.old.conn.ghost_name }
    ensures value { Steps S.Store tx.old.conn.now tx.new.conn.now result
        (with_revoked kinds.Digest digest.now) }
    ensures inside { StaysInside S.Store tx.old.conn.now tx.new.conn.now result }
    ensures kept { CommitsNothing S.Store tx.old.conn.now tx.new.conn.now }
    ensures survives { Spares S.Store tx.old.conn.now tx.new.conn.now }
{
    insert(tx, INSERT_REVOKED_DIGEST, params![digest.as_bytes()])?;
    Ok(())
}

/// Inserts a revoked certificate, by its digest.
fn revoke_certificate<S: Alter>(
    tx: &mut Transaction<'_, S>,
    digest: &Digest,
) -> Result<(), StoreFault>
    ensures same_reference { tx.new.conn.ghost_name ≡ tx.old.conn.ghost_name }
    ensures value { Steps S.Store tx.old.conn.now tx.new.conn.now result
        (with_revoked kinds.Certificate digest.now) }
    ensures inside { StaysInside S.Store tx.old.conn.now tx.new.conn.now result }
    ensures kept { CommitsNothing S.Store tx.old.conn.now tx.new.conn.now }
    ensures survives { Spares S.Store tx.old.conn.now tx.new.conn.now }
{
    insert(tx, INSERT_REVOKED_CERTIFICATE, params![digest.as_bytes()])?;
    Ok(())
}

/// Inserts a revoked digest, of an image or of a certificate.
pub(crate) fn revoke<S: Alter>(
    tx: &mut Transaction<'_, S>,
    listing: &Listing,
) -> Result<(), StoreFault>
    ensures same_reference { tx.new.conn.ghost_name ≡ tx.old.conn.ghost_name }
    ensures value { Steps S.Store tx.old.conn.now tx.new.conn.now result
        (written (writes.Revoke listing.now)) }
    ensures inside { StaysInside S.Store tx.old.conn.now tx.new.conn.now result }
    ensures kept { CommitsNothing S.Store tx.old.conn.now tx.new.conn.now }
    ensures survives { Spares S.Store tx.old.conn.now tx.new.conn.now }
{
    match listing.kind {
        ListedKind::Digest => revoke_digest(tx, &listing.digest),
        ListedKind::Certificate => revoke_certificate(tx, &listing.digest),
    }
}
