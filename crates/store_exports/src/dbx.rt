//! dbx: the revoked entries.
ghost use Rattle.siglist.specs.Writing.{sha256_parts, x509_sha256_parts};
ghost use Rattle.desk_types.specs.declared.kind.ListedKind.TheVariants as kinds;
ghost use Rattle.desk_exports.specs.Exports.{dbx, revoked};
ghost use Rattle.store_exports.specs.Exporting.{Exports};

use crate::fault::ExportFault;
use crate::forms::{RevokedCertificate, RevokedDigest};
use crate::heads::{head_count, size};
use crate::taking::put_rows;
use base::Guid;
use siglist::{sha256_head, x509_sha256_head};
use sqlite::{Alter, Connection};
use std::alloc::Global;
use std::io::Write;
use store_reads::Counted;
use store_schema::{SELECT_REVOKED_CERTIFICATES, SELECT_REVOKED_DIGESTS};

/// Writes the list of the revoked digests of images, ascending, if there is one.
pub(crate) fn put_digest_list<S: Alter, W: Write>(
    alloc: Global,
    conn: &mut Connection<S>,
    owner: Guid,
    writer: &mut W,
) -> Result<(), ExportFault>
    ensures { Exports S.Store conn.old conn.new
        (W.contents writer.old) (W.contents writer.new) result
        (λ cs. sha256_parts owner (revoked kinds.Digest cs)) }
{
    let counted = size(conn, Counted::RevokedDigests)?;
    if counted == 0 {
        return Ok(());
    }
    let count = head_count(counted)?;
    sha256_head(count, writer)?;
    let form = RevokedDigest { owner };
    put_rows(alloc, conn, SELECT_REVOKED_DIGESTS, &[], &form, writer)
}

/// Writes the list of the revoked certificates, ascending by their digests, if there is one.
fn put_certificate_list<S: Alter, W: Write>(
    alloc: Global,
    conn: &mut Connection<S>,
    owner: Guid,
    writer: &mut W,
) -> Result<(), ExportFault>
    ensures { Exports S.Store conn.old conn.new
        (W.contents writer.old) (W.contents writer.new) result
        (λ cs. x509_sha256_parts owner (revoked kinds.Certificate cs)) }
{
    let counted = size(conn, Counted::RevokedCertificates)?;
    if counted == 0 {
        return Ok(());
    }
    let count = head_count(counted)?;
    x509_sha256_head(count, writer)?;
    let form = RevokedCertificate { owner };
    put_rows(alloc, conn, SELECT_REVOKED_CERTIFICATES, &[], &form, writer)
}

/// Writes both lists.
pub(crate) fn put_dbx<S: Alter, W: Write>(
    alloc: Global,
    conn: &mut Connection<S>,
    owner: Guid,
    writer: &mut W,
) -> Result<(), ExportFault>
    ensures { Exports S.Store conn.old conn.new
        (W.contents writer.old) (W.contents writer.new) result (dbx owner) }
{
    put_digest_list(alloc, conn, owner, writer)?;
    put_certificate_list(alloc, conn, owner, writer)
}
