//! Imports of CSV files.
ghost use Rattle.std.specs.Prelude.{List, IfErr, IfOk, Some};
ghost use Rattle.desk_inputs.specs.imports.FromCsv.{IsCsvImport, IsRefused, Record, RefusesCsv, items_in};
ghost use Rattle.desk_inputs.specs.imports.Records.{GathersRecords, Leaves, PassesHeader};

use crate::imports::csv_rows::{Next, read_next, rows_of};
use crate::imports::fault::ImportFault;
use crate::imports::gathering::Gathered;
use crate::imports::record::{is_header, read_record};
use csv::{ByteRecord, Reader};
use desk_types::Command;
use sbat::{NameFault, Stamp};
use std::alloc::Global;

/// Reads the header.
fn read_header(reader: &mut Reader<&[u8]>, row: &mut ByteRecord) -> Result<(), ImportFault>
    ensures ok { IfOk result (λ _. (rows : List Record) → Leaves (λ s. Some s.now) reader.old rows
        → PassesHeader (λ s. Some s.now) rows reader.new) }

    ensures err { IfErr result (λ fault. (rows : List Record)
        → Leaves (λ s. Some s.now) reader.old rows → IsRefused (items_in rows) fault) }
{
    match read_next(reader, row) {
        Next::Record => {}
        Next::End => return Err(ImportFault::Record(0)),
        Next::NoMemory => return Err(ImportFault::NoMemory),
    }
    if !is_header(row) {
        return Err(ImportFault::Record(0));
    }
    Ok(())
}

/// Gathers the records that the reader has left; the first is the header.
fn gather(alloc: Global, reader: &mut Reader<&[u8]>) -> Result<Gathered, ImportFault>
    ensures ok { IfOk result (λ gathered. (rows : List Record)
        → Leaves (λ s. Some s.now) reader.old rows → GathersRecords rows gathered) }

    ensures err { IfErr result (λ fault. (rows : List Record)
        → Leaves (λ s. Some s.now) reader.old rows → IsRefused (items_in rows) fault) }
{
    let mut row = ByteRecord::new(alloc);
    let mut gathered = Gathered::new(alloc);
    if let Err(fault) = read_header(reader, &mut row) {
        return Err(fault);
    }
    for number in 1..u64::MAX {
        match read_next(reader, &mut row) {
            Next::Record => {}
            Next::End => return Ok(gathered),
            Next::NoMemory => return Err(ImportFault::NoMemory),
        }
        match read_record(alloc, &row) {
            Ok(item) => {
                if gathered.keep(item).is_err() {
                    return Err(ImportFault::NoMemory);
                }
            }
            Err(NameFault::Form) => return Err(ImportFault::Record(number)),
            Err(NameFault::NoMemory) => return Err(ImportFault::NoMemory),
        }
    }
    Err(ImportFault::NoMemory)
}

/// The import of a CSV file, as one command with this stamp or none. The file is read with the
/// defaults of the crate `csv`: commas, double quotes, and any of CR, LF and CRLF at a line's end;
/// empty lines aren't records, and a byte order mark EF BB BF at the beginning is dropped.
///
/// The header is `kind,value,generation`. Each record has three fields. `sha256` or `x509_sha256`,
/// 64 hexadecimal digits of either case and no generation revoke a digest of an image, or the
/// certificate whose TBSCertificate has that SHA-256. `sbat`, a component's name other than `sbat`
/// and a generation raise the level. The file is read record by record; takes memory for at most
/// 10,001 entries, and for the longest record.
///
/// The first wrong record is returned as Record with its number; a missing or wrong header is
/// record 0. TooLong, for more than 10,000 entries, comes only if no record is wrong. NoMemory:
/// memory was refused.
pub fn import_csv(alloc: Global, text: &[u8], stamp: Option<Stamp>) -> Result<Command, ImportFault>
    ensures exact { IfOk result (IsCsvImport text.now stamp) }

    ensures first { IfErr result (RefusesCsv text.now) }
{
    let mut reader = rows_of(alloc, text);
    let gathered = match gather(alloc, &mut reader) {
        Ok(gathered) => gathered,
        Err(fault) => return Err(fault),
    };
    match gathered.into_command(stamp) {
        Some(command) => Ok(command),
        None => Err(ImportFault::TooLong),
    }
}
