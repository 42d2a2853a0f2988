//! Written forms of listed entries.
ghost use Rattle.std.specs.Prelude.{OnErr, OnOk};
ghost use Rattle.std.specs.Io.KnownBytes.{Appends};
ghost use Rattle.base.specs.Output.{AppendsBeginning};
ghost use Rattle.siglist.specs.SignatureLists.{spelling};
ghost use Rattle.siglist.specs.Writing.{sha256_entry_bytes, x509_row};
ghost use Rattle.store_schema.specs.rows.Values.{entry_values};
ghost use Rattle.store_exports.specs.Rows.{IsPart};

use crate::fault::ExportFault;
use crate::forms::RowForm;
use base::Guid;
use desk_history::Entry;
use desk_types::LONGEST_CERTIFICATE;
use siglist::{sha256_entry, write_x509};
use sqlite::Row;
use std::alloc::Global;
use std::io::Write;
use store_reads::{FromRow, ReadFault};

/// A listed digest of an image, as an entry of a SHA256 list.
#[derive(Drop)]
pub(crate) struct ListedDigest {
    pub(crate) owner: Guid,
}

impl RowForm for ListedDigest {
    ghost spells = { λ f. IsPart entry_values (λ e. sha256_entry_bytes f.owner e.digest) };

    fn put<W: Write>(&self, alloc: Global, row: &Row, writer: &mut W) -> Result<(), ExportFault> {
        let entry = Entry::from_row(alloc, row)?;
        sha256_entry(&self.owner, &entry.digest, writer)?;
        Ok(())
    }
}

/// Writes a list of this certificate. `Read`: it is empty, or longer than a listed certificate may
/// be; nothing was written.
fn put_certificate<W: Write>(
    owner: &Guid,
    certificate: &[u8],
    writer: &mut W,
) -> Result<(), ExportFault>
    ensures ok { OnOk result (Appends (W.contents writer.old) (W.contents writer.new)
        (spelling (x509_row owner.now certificate.now))) }
    ensures err { OnErr result (AppendsBeginning (W.contents writer.old) (W.contents writer.new)
        (spelling (x509_row owner.now certificate.now))) }
{
    if certificate.is_empty() {
        return Err(ExportFault::Read(ReadFault::Row));
    }
    if certificate.len() > LONGEST_CERTIFICATE {
        return Err(ExportFault::Read(ReadFault::Row));
    }
    write_x509(owner, certificate, writer)?;
    Ok(())
}

/// A listed certificate, as an X509 list of its own.
#[derive(Drop)]
pub(crate) struct ListedCertificate {
    pub(crate) owner: Guid,
}

impl RowForm for ListedCertificate {
    ghost spells = { λ f. IsPart entry_values (λ e. spelling (x509_row f.owner e.body)) };

    fn put<W: Write>(&self, alloc: Global, row: &Row, writer: &mut W) -> Result<(), ExportFault> {
        let entry = Entry::from_row(alloc, row)?;
        put_certificate(&self.owner, entry.body.as_slice(), writer)
    }
}
