//! db: the listed entries.
ghost use Rattle.std.specs.Prelude.{map};
ghost use Rattle.std.specs.List.{flat_map};
ghost use Rattle.siglist.specs.SignatureLists.{spelling};
ghost use Rattle.siglist.specs.Writing.{sha256_parts, x509_row};
ghost use Rattle.desk_types.specs.declared.kind.ListedKind.TheVariants as kinds;
ghost use Rattle.desk_exports.specs.Exports.{db, entries_of};
ghost use Rattle.store_exports.specs.Exporting.{Exports};

use crate::fault::ExportFault;
use crate::heads::{head_count, size};
use crate::listed_forms::{ListedCertificate, ListedDigest};
use crate::taking::put_rows;
use base::Guid;
use desk_types::ListedKind;
use siglist::sha256_head;
use sqlite::{Alter, Connection, params};
use std::alloc::Global;
use std::io::Write;
use store_reads::Counted;
use store_schema::SELECT_LISTED_OF;

/// Writes the list of the listed digests of images, ascending, if there is one.
fn put_digest_list<S: Alter, W: Write>(
    alloc: Global,
    conn: &mut Connection<S>,
    owner: Guid,
    writer: &mut W,
) -> Result<(), ExportFault>
    ensures { Exports S.Store conn.old conn.new
        (W.contents writer.old) (W.contents writer.new) result
        (λ cs. sha256_parts owner (map (λ e. e.digest) (entries_of kinds.Digest cs))) }
{
    let counted = size(conn, Counted::ListedOf(ListedKind::Digest))?;
    if counted == 0 {
        return Ok(());
    }
    let count = head_count(counted)?;
    sha256_head(count, writer)?;
    let form = ListedDigest { owner };
    let kind = ListedKind::Digest.text();
    put_rows(alloc, conn, SELECT_LISTED_OF, params![kind], &form, writer)
}

/// Writes a list for each listed certificate, ascending by its digest.
fn put_certificates<S: Alter, W: Write>(
    alloc: Global,
    conn: &mut Connection<S>,
    owner: Guid,
    writer: &mut W,
) -> Result<(), ExportFault>
    ensures { Exports S.Store conn.old conn.new
        (W.contents writer.old) (W.contents writer.new) result
        (λ cs. flat_map (λ e. spelling (x509_row owner e.body))
        (entries_of kinds.Certificate cs)) }
{
    let form = ListedCertificate { owner };
    let kind = ListedKind::Certificate.text();
    put_rows(alloc, conn, SELECT_LISTED_OF, params![kind], &form, writer)
}

/// Writes all of these lists.
pub(crate) fn put_db<S: Alter, W: Write>(
    alloc: Global,
    conn: &mut Connection<S>,
    owner: Guid,
    writer: &mut W,
) -> Result<(), ExportFault>
    ensures { Exports S.Store conn.old conn.new
        (W.contents writer.old) (W.contents writer.new) result (db owner) }
{
    put_digest_list(alloc, conn, owner, writer)?;
    put_certificates(alloc, conn, owner, writer)
}
