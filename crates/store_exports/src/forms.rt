//! Written forms of revoked digests, of the level's components and of the minutes.
ghost use Rattle.std.specs.Prelude.{ℕ, List, OnErr, OnOk};
ghost use Rattle.sqlite.specs.Order.{Row as Shown};
ghost use Rattle.sbat.specs.Writing.{row_text};
ghost use Rattle.siglist.specs.Writing.{sha256_entry_bytes, x509_sha256_entry_bytes};
ghost use Rattle.store_schema.specs.rows.Values.{component_values, digest_values};
ghost use Rattle.store_exports.specs.Rows.{BeginsRow, IsPart, WritesRow};

use crate::fault::ExportFault;
use base::{Digest, Guid};
use sbat::{Component, level_row};
use siglist::{sha256_entry, x509_sha256_entry};
use sqlite::Row;
use std::alloc::Global;
use std::io::Write;
use store_reads::FromRow;

/// The form in which a row is written.
pub(crate) trait RowForm {
    /// The bytes of a row in this form: the form, the row, the bytes.
    ghost spells: { Self → Shown → List ℕ → Type 0 };

    /// Writes the row.
    ///
    /// `Read`: the row isn't the desk's, or memory was refused; nothing was written. `Write`: the
    /// writer failed.
    fn put<W: Write>(&self, alloc: Global, row: &Row, writer: &mut W) -> Result<(), ExportFault>
        ensures ok { OnOk result (WritesRow (spells self.now row.now)
            (W.contents writer.old) (W.contents writer.new)) }
        ensures err { OnErr result (BeginsRow (spells self.now row.now)
            (W.contents writer.old) (W.contents writer.new)) };
}

/// A revoked digest of an image, as an entry of a SHA256 list.
#[derive(Drop)]
pub(crate) struct RevokedDigest {
    pub(crate) owner: Guid,
}

impl RowForm for RevokedDigest {
    ghost spells = { λ f. IsPart digest_values (sha256_entry_bytes f.owner) };

    fn put<W: Write>(&self, alloc: Global, row: &Row, writer: &mut W) -> Result<(), ExportFault> {
        let digest = Digest::from_row(alloc, row)?;
        sha256_entry(&self.owner, &digest, writer)?;
        Ok(())
    }
}

/// A revoked certificate's digest, as an entry of an X509_SHA256 list.
#[derive(Drop)]
pub(crate) struct RevokedCertificate {
    pub(crate) owner: Guid,
}

impl RowForm for RevokedCertificate {
    ghost spells = { λ f. IsPart digest_values (x509_sha256_entry_bytes f.owner) };

    fn put<W: Write>(&self, alloc: Global, row: &Row, writer: &mut W) -> Result<(), ExportFault> {
        let digest = Digest::from_row(alloc, row)?;
        x509_sha256_entry(&self.owner, &digest, writer)?;
        Ok(())
    }
}

/// A component of the level, as its line.
#[derive(Drop)]
pub(crate) struct LevelLine;

impl RowForm for LevelLine {
    ghost spells = { λ _. IsPart component_values (λ x. row_text x.name x.generation) };

    fn put<W: Write>(&self, alloc: Global, row: &Row, writer: &mut W) -> Result<(), ExportFault> {
        let component = Component::from_row(alloc, row)?;
        level_row(&component.name, component.generation, writer)?;
        Ok(())
    }
}
