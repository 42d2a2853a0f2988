//! The records of a CSV file, one by one.
ghost use Rattle.std.specs.Prelude.{List, Some};
ghost use Rattle.csv.specs.Records.{fields_of};
ghost use Rattle.desk_inputs.specs.imports.FromCsv.{Record, records_of};
ghost use Rattle.desk_inputs.specs.imports.Records.{Leaves, Reads};

use csv::{ByteRecord, Reader, ReaderBuilder};
use std::alloc::Global;

/// A reader at the first record of a text.
pub(crate) fn rows_of(alloc: Global, text: &[u8]) -> Reader<&[u8]>
    ensures { Leaves (λ s. Some s.now) result (records_of text.now) }
{
    ReaderBuilder::new()
        .has_headers(false)
        .flexible(true)
        .from_reader(alloc, text)
}

/// The outcome of a read of the next record.
#[derive(Clone, Copy, Debug, PartialEq, Eq)]
pub(crate) enum Next {
    Record,
    End,
    NoMemory,
}

/// Reads the next record into `row`. Reading a slice never fails, so an error means that memory was
/// refused.
pub(crate) fn read_next(reader: &mut Reader<&[u8]>, row: &mut ByteRecord) -> Next
    ensures { (rows : List Record) → Leaves (λ s. Some s.now) reader.old rows
        → Reads (λ s. Some s.now) result (fields_of row.new) rows reader.new }
{
    let Ok(found) = reader.read_byte_record(row) else {
        return Next::NoMemory;
    };
    if found {
        return Next::Record;
    }
    Next::End
}
