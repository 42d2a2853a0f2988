//! The writing of lists in parts: a head, and then its entries. If the writer fails, it holds a
//! prefix of the part, which may be empty.
ghost use Rattle.std.specs.Prelude.{◌≤◌, OnErr, OnOk};
ghost use Rattle.std.specs.Io.KnownBytes.{Appends};
ghost use Rattle.base.specs.Output.{AppendsBeginning};
ghost use Rattle.siglist.specs.Writing.{most_digests, sha256_entry_bytes, sha256_head_bytes, x509_sha256_entry_bytes, x509_sha256_head_bytes};

use crate::kind::{SHA256, SHA256_SIZE, X509_SHA256, X509_SHA256_SIZE};
use crate::writing::{put_entry, put_head};
use base::{Digest, Guid, WriteFailed, put};
use std::io::Write;

/// Writes the 28 bytes at the head of a SHA256 list of `count` digests, whose entries must follow
/// (UEFI 2.10, section 32.4.1). The head names no owner.
pub fn sha256_head<W: Write>(count: u32, writer: &mut W) -> Result<(), WriteFailed>
    requires some { 1 ≤ count }
    requires few { count ≤ most_digests }
    ensures ok { OnOk result (Appends (W.contents writer.old) (W.contents writer.new)
        (sha256_head_bytes count)) }
    ensures err { OnErr result (AppendsBeginning (W.contents writer.old) (W.contents writer.new)
        (sha256_head_bytes count)) }
{
    put_head(&SHA256, SHA256_SIZE, count, writer)
}

/// Writes an entry of a SHA256 list: 48 bytes.
pub fn sha256_entry<W: Write>(
    owner: &Guid,
    digest: &Digest,
    writer: &mut W,
) -> Result<(), WriteFailed>
    ensures ok { OnOk result (Appends (W.contents writer.old) (W.contents writer.new)
        (sha256_entry_bytes owner.now digest.now)) }
    ensures err { OnErr result (AppendsBeginning (W.contents writer.old) (W.contents writer.new)
        (sha256_entry_bytes owner.now digest.now)) }
{
    put_entry(owner.as_bytes(), digest.as_bytes(), writer)
}

/// Writes the 28 bytes at the head of an X509_SHA256 list of `count` digests, whose entries must
/// follow.
pub fn x509_sha256_head<W: Write>(count: u32, writer: &mut W) -> Result<(), WriteFailed>
    requires some { 1 ≤ count }
    requires few { count ≤ most_digests }
    ensures ok { OnOk result (Appends (W.contents writer.old) (W.contents writer.new)
        (x509_sha256_head_bytes count)) }
    ensures err { OnErr result (AppendsBeginning (W.contents writer.old) (W.contents writer.new)
        (x509_sha256_head_bytes count)) }
{
    put_head(&X509_SHA256, X509_SHA256_SIZE, count, writer)
}

/// Writes an entry of an X509_SHA256 list: 64 bytes. The digest is the SHA-256 of a TBSCertificate,
/// its TimeOfRevocation 16 zero bytes.
pub fn x509_sha256_entry<W: Write>(
    owner: &Guid,
    digest: &Digest,
    writer: &mut W,
) -> Result<(), WriteFailed>
    ensures ok { OnOk result (Appends (W.contents writer.old) (W.contents writer.new)
        (x509_sha256_entry_bytes owner.now digest.now)) }
    ensures err { OnErr result (AppendsBeginning (W.contents writer.old) (W.contents writer.new)
        (x509_sha256_entry_bytes owner.now digest.now)) }
{
    put_entry(owner.as_bytes(), digest.as_bytes(), writer)?;
    put(&[0; 16], writer)
}
