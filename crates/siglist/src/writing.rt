//! The writing of lists. If the writer fails, it holds a prefix of the bytes, which may be empty.
ghost use Rattle.std.specs.Prelude.{◌+◌, ◌*◌, ◌<◌, ◌≤◌, ◌^◌, length, OnOk, OnErr};
ghost use Rattle.std.specs.Int.{w32, to_le_bytes};
ghost use Rattle.std.specs.Io.KnownBytes.{Appends};
ghost use Rattle.base.specs.Output.{AppendsBeginning};
ghost use Rattle.siglist.specs.SignatureLists.{entry_bytes, spelling};
ghost use Rattle.siglist.specs.Writing.{bare_head, digest_row, entry_of, most_digests, one_row, sha256_row, x509_row, x509_sha256_row};

use crate::kind::{SHA256, SHA256_SIZE, X509, X509_SHA256};
use base::{Digest, Guid, WriteFailed, put};
use std::io::Write;

/// Writes a number, little-endian.
fn put_u32<W: Write>(number: u32, writer: &mut W) -> Result<(), WriteFailed>
    ensures ok { OnOk result (Appends (W.contents writer.old) (W.contents writer.new)
        (to_le_bytes w32 number)) }
    ensures err { OnErr result (AppendsBeginning (W.contents writer.old) (W.contents writer.new)
        (to_le_bytes w32 number)) }
{
    put(&number.to_le_bytes(), writer)
}

/// Writes the head of a list without a header.
pub(crate) fn put_head<W: Write>(
    kind: &[u8; 16],
    entry_size: u32,
    count: u32,
    writer: &mut W,
) -> Result<(), WriteFailed>
    requires { 28 + entry_size * count < 2 ^ 32 }
    ensures ok { OnOk result (Appends (W.contents writer.old) (W.contents writer.new)
        (bare_head kind.now entry_size count)) }
    ensures err { OnErr result (AppendsBeginning (W.contents writer.old) (W.contents writer.new)
        (bare_head kind.now entry_size count)) }
{
    put(kind, writer)?;
    put_u32(28 + entry_size * count, writer)?;
    put_u32(0, writer)?;
    put_u32(entry_size, writer)
}

/// Writes one entry.
pub(crate) fn put_entry<W: Write>(
    owner: &[u8],
    body: &[u8],
    writer: &mut W,
) -> Result<(), WriteFailed>
    ensures ok { OnOk result (Appends (W.contents writer.old) (W.contents writer.new)
        (entry_bytes (entry_of owner.now body.now))) }
    ensures err { OnErr result (AppendsBeginning (W.contents writer.old) (W.contents writer.new)
        (entry_bytes (entry_of owner.now body.now))) }
{
    put(owner, writer)?;
    put(body, writer)
}

/// Writes one list of some digests, each with the same bytes after it.
fn put_digests<W: Write>(
    kind: &[u8; 16],
    owner: &[u8],
    digests: &[Digest],
    after: &[u8],
    writer: &mut W,
) -> Result<(), WriteFailed>
    requires some { 0 < length digests.now }
    requires few { length digests.now ≤ most_digests }
    requires short { length after.now ≤ 16 }
    ensures ok { OnOk result (Appends (W.contents writer.old) (W.contents writer.new)
        (spelling (digest_row kind.now owner.now digests.now after.now))) }
    ensures err { OnErr result (AppendsBeginning (W.contents writer.old) (W.contents writer.new)
        (spelling (digest_row kind.now owner.now digests.now after.now))) }
{
    let entry_size = SHA256_SIZE + after.len() as u32;
    put_head(kind, entry_size, digests.len() as u32, writer)?;
    for digest in digests {
        put_entry(owner, digest.as_bytes(), writer)?;
        put(after, writer)?;
    }
    Ok(())
}

/// Writes one list of one entry.
fn put_one<W: Write>(
    kind: &[u8; 16],
    owner: &[u8],
    body: &[u8],
    writer: &mut W,
) -> Result<(), WriteFailed>
    requires short { length body.now ≤ 65536 }
    ensures ok { OnOk result (Appends (W.contents writer.old) (W.contents writer.new)
        (spelling (one_row kind.now owner.now body.now))) }
    ensures err { OnErr result (AppendsBeginning (W.contents writer.old) (W.contents writer.new)
        (spelling (one_row kind.now owner.now body.now))) }
{
    put_head(kind, 16 + body.len() as u32, 1, writer)?;
    put_entry(owner, body, writer)
}

/// Writes one SHA256 list of the digests, in the order given, or nothing if there is none.
pub fn write_sha256<W: Write>(
    owner: &Guid,
    digests: &[Digest],
    writer: &mut W,
) -> Result<(), WriteFailed>
    requires few { length digests.now ≤ most_digests }
    ensures ok { OnOk result (Appends (W.contents writer.old) (W.contents writer.new)
        (spelling (sha256_row owner.now digests.now))) }
    ensures err { OnErr result (AppendsBeginning (W.contents writer.old) (W.contents writer.new)
        (spelling (sha256_row owner.now digests.now))) }
{
    if digests.is_empty() {
        Ok(())
    } else {
        put_digests(&SHA256, owner.as_bytes(), digests, &[], writer)
    }
}

/// Writes one X509_SHA256 list, in the order given, or nothing if there is no digest. Each digest
/// is the SHA-256 of a TBSCertificate; its TimeOfRevocation, an EFI_TIME, is 16 zero bytes, which
/// revoke the certificate whenever it signed.
pub fn write_x509_sha256<W: Write>(
    owner: &Guid,
    digests: &[Digest],
    writer: &mut W,
) -> Result<(), WriteFailed>
    requires few { length digests.now ≤ most_digests }
    ensures ok { OnOk result (Appends (W.contents writer.old) (W.contents writer.new)
        (spelling (x509_sha256_row owner.now digests.now))) }
    ensures err { OnErr result (AppendsBeginning (W.contents writer.old) (W.contents writer.new)
        (spelling (x509_sha256_row owner.now digests.now))) }
{
    if digests.is_empty() {
        Ok(())
    } else {
        put_digests(&X509_SHA256, owner.as_bytes(), digests, &[0; 16], writer)
    }
}

/// Writes one X509 list of one entry, whose body is the certificate in DER.
pub fn write_x509<W: Write>(
    owner: &Guid,
    certificate: &[u8],
    writer: &mut W,
) -> Result<(), WriteFailed>
    requires some { 1 ≤ length certificate.now }
    requires short { length certificate.now ≤ 65536 }
    ensures ok { OnOk result (Appends (W.contents writer.old) (W.contents writer.new)
        (spelling (x509_row owner.now certificate.now))) }
    ensures err { OnErr result (AppendsBeginning (W.contents writer.old) (W.contents writer.new)
        (spelling (x509_row owner.now certificate.now))) }
{
    put_one(&X509, owner.as_bytes(), certificate, writer)
}
