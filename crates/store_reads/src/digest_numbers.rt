//! The numbers of the requests that have a digest, a column at a time.
ghost use Rattle.std.specs.Prelude.{◌≡◌};
ghost use Rattle.std.specs.List.Sorted.{IsPermutation};
ghost use Rattle.store_reads.specs.Numbers.{numbers_in, numbers_text};
ghost use Rattle.store_reads.specs.Reads.{ReadsTables};
ghost use Rattle.store_sql.specs.States.{DoesInside, CommitsNothing, Spares, StaysInside};

use crate::ReadFault;
use crate::reading::rows_of;
use base::Digest;
use desk_types::RequestNumber;
use sqlite::{Alter, Transaction, params};
use std::alloc::Global;
use store_schema::{
    SELECT_NUMBERS_OF_CERTIFICATE, SELECT_NUMBERS_OF_DIGEST, SELECT_NUMBERS_OF_FILE,
    SELECT_NUMBERS_OF_RETURNED_DIGEST, SELECT_NUMBERS_OF_RETURNED_FILE, SELECT_NUMBERS_OF_SIGNING,
};

/// A column that holds a digest of a request.
#[derive(Clone, Copy)]
pub enum DigestColumn {
    /// `file` of `requests`: the SHA-256 of the submitted file.
    File,
    /// `digest` of `requests`: the Authenticode digest of its image.
    Digest,
    /// `signing` of `requests`: the digest that a signature of its image holds.
    Signing,
    /// `file` of `returns`: the SHA-256 of the returned file.
    ReturnedFile,
    /// `digest` of `returns`: the Authenticode digest of its image.
    ReturnedDigest,
    /// `digest` of `request_certificates`: that of a certificate which the submitted image carries.
    Certificate,
}

/// The text of the statement that finds the numbers by this column.
fn text_of(column: DigestColumn) -> &'static str
    ensures { result.now ≡ numbers_text column }
{
    match column {
        DigestColumn::File => SELECT_NUMBERS_OF_FILE,
        DigestColumn::Digest => SELECT_NUMBERS_OF_DIGEST,
        DigestColumn::Signing => SELECT_NUMBERS_OF_SIGNING,
        DigestColumn::ReturnedFile => SELECT_NUMBERS_OF_RETURNED_FILE,
        DigestColumn::ReturnedDigest => SELECT_NUMBERS_OF_RETURNED_DIGEST,
        DigestColumn::Certificate => SELECT_NUMBERS_OF_CERTIFICATE,
    }
}

/// The numbers of the requests that have the digest in a column, in any order: one for each row.
/// Visits every row of the column's table. Takes memory for the numbers.
pub fn numbers_with<S: Alter>(
    alloc: Global,
    tx: &mut Transaction<'_, S>,
    column: DigestColumn,
    digest: &Digest,
) -> Result<Vec<RequestNumber>, ReadFault>
    ensures same_reference { tx.new.conn.ghost_name ≡ tx.old.conn.ghost_name }
    ensures value { DoesInside S.Store tx.old.conn.now tx.new.conn.now result
        (λ numbers. ReadsTables (λ t. IsPermutation (numbers_in column digest.now t)
        numbers.items)) }
    ensures inside { StaysInside S.Store tx.old.conn.now tx.new.conn.now result }
    ensures kept { CommitsNothing S.Store tx.old.conn.now tx.new.conn.now }
    ensures survives { Spares S.Store tx.old.conn.now tx.new.conn.now }
{
    let sql = text_of(column);
    let numbers = rows_of(alloc, tx, sql, params![digest.as_bytes()])?;
    Ok(numbers)
}
