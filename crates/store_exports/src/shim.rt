//! dbx in the form that shim reads.
ghost use Rattle.std.specs.Prelude.{◌≡◌, ◌++◌, All, IfOk, OnErr, OnOk};
ghost use Rattle.std.specs.List.{flat_map};
ghost use Rattle.std.specs.Io.KnownBytes.{Appends};
ghost use Rattle.base.specs.Output.{AppendsBeginning};
ghost use Rattle.siglist.specs.SignatureLists.{spelling};
ghost use Rattle.siglist.specs.Writing.{x509_row, x509_sha256_parts};
ghost use Rattle.desk_history.specs.Formed.{IsItem};
ghost use Rattle.desk_exports.specs.Exports.{revoked_bodies, revoked_bodiless, shim};
ghost use Rattle.store_exports.specs.Exporting.{ExportsWhere};
ghost use Rattle.store_exports.specs.Gathering.{bodies_text, bodiless, gathered_text};

use crate::dbx::put_digest_list;
use crate::fault::ExportFault;
use crate::gathered::Gathered;
use crate::gathering::gather;
use crate::heads::MOST_DIGESTS;
use base::{Digest, Guid, WriteFailed};
use siglist::write_x509_sha256;
use sqlite::{Alter, Connection};
use std::alloc::Global;
use std::io::Write;
use store_reads::ReadFault;

/// Writes an X509 list for each body of each certificate.
fn put_bodies<W: Write>(
    owner: &Guid,
    gathered: &[Gathered],
    writer: &mut W,
) -> Result<(), WriteFailed>
    ensures ok { OnOk result (Appends (W.contents writer.old) (W.contents writer.new)
        (flat_map (bodies_text owner.now) gathered.now)) }
    ensures err { OnErr result (AppendsBeginning (W.contents writer.old) (W.contents writer.new)
        (flat_map (bodies_text owner.now) gathered.now)) }
{
    for one in gathered {
        one.put(owner, writer)?;
    }
    Ok(())
}

/// The digests of those without a body, in their order.
fn others_of(alloc: Global, gathered: &[Gathered]) -> Result<Vec<Digest>, ReadFault>
    ensures { IfOk result (λ others. others.items ≡ bodiless gathered.now) }
{
    let mut others = Vec::new(alloc);
    for one in gathered {
        one.push_bodiless(&mut others)?;
    }
    Ok(others)
}

/// Writes the lists of these certificates: those with bodies first, then one for the others.
/// Takes memory for the digests of the others.
///
/// `Read`: memory was refused, or there are more others than a list may have; nothing was written.
fn put_gathered<W: Write>(
    alloc: Global,
    owner: &Guid,
    gathered: &[Gathered],
    writer: &mut W,
) -> Result<(), ExportFault>
    ensures ok { OnOk result (Appends (W.contents writer.old) (W.contents writer.new)
        (gathered_text owner.now gathered.now)) }
    ensures err { OnErr result (AppendsBeginning (W.contents writer.old) (W.contents writer.new)
        (gathered_text owner.now gathered.now)) }
{
    let others = others_of(alloc, gathered)?;
    if others.len() > MOST_DIGESTS as usize {
        return Err(ExportFault::Read(ReadFault::Row));
    }
    put_bodies(owner, gathered, writer)?;
    write_x509_sha256(owner, &others, writer)?;
    Ok(())
}

/// Writes the lists of the revoked certificates.
fn put_certificates<S: Alter, W: Write>(
    alloc: Global,
    conn: &mut Connection<S>,
    owner: Guid,
    writer: &mut W,
) -> Result<(), ExportFault>
    ensures { ExportsWhere (All IsItem) S.Store conn.old conn.new
        (W.contents writer.old) (W.contents writer.new) result
        (λ cs. flat_map (λ body. spelling (x509_row owner body)) (revoked_bodies cs)
        ++ x509_sha256_parts owner (revoked_bodiless cs)) }
{
    let gathered = gather(alloc, conn)?;
    put_gathered(alloc, &owner, &gathered, writer)
}

/// Writes all of the lists. The bodies of the revoked certificates are gathered first, in one pass
/// over the calls: each has at most 65,536 bytes, and revoked certificates with bodies are few.
pub(crate) fn put_shim<S: Alter, W: Write>(
    alloc: Global,
    conn: &mut Connection<S>,
    owner: Guid,
    writer: &mut W,
) -> Result<(), ExportFault>
    ensures { ExportsWhere (All IsItem) S.Store conn.old conn.new
        (W.contents writer.old) (W.contents writer.new) result (shim owner) }
{
    put_digest_list(alloc, conn, owner, writer)?;
    put_certificates(alloc, conn, owner, writer)
}
