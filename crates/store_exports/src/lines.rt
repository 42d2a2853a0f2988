//! The minutes, a line for each call.
ghost use Rattle.std.specs.Prelude.{◌≡◌, ◌∷◌, [], IfOk, OnErr, OnOk, pos};
ghost use Rattle.std.specs.Io.KnownBytes.{Appends};
ghost use Rattle.sqlite.specs.declared.types.Value.TheVariants.{Int, Text};
ghost use Rattle.base.specs.Output.{AppendsBeginning};
ghost use Rattle.desk_exports.specs.Exports.{minutes_text};
ghost use Rattle.store_exports.specs.Exporting.{Exports};
ghost use Rattle.store_exports.specs.Lines.{columns_row, line, line_of};
ghost use Rattle.store_exports.specs.Rows.{IsPart};

use crate::columns::{number_at, text_at};
use crate::fault::ExportFault;
use crate::forms::RowForm;
use crate::taking::put_rows;
use base::{WriteFailed, put_each};
use itoa::Buffer;
use sqlite::{Alter, Connection, Row};
use std::alloc::Global;
use std::io::Write;
use store_reads::ReadFault;
use store_schema::SELECT_CALLS;

/// The columns of a call, borrowed from its row.
#[derive(Drop)]
struct CallColumns<'a> {
    number: u64,
    caller: &'a [u8],
    key: &'a [u8],
    text: &'a [u8],
    reply: &'a [u8],
}

/// The columns of a call's row. `Row`: it has others.
fn columns_of(row: &Row) -> Result<CallColumns<'_>, ReadFault>
    ensures { IfOk result (λ c. row.now ≡ Int (pos c.number) ∷ Text c.caller.now ∷ Text c.key.now
        ∷ Text c.text.now ∷ Text c.reply.now ∷ []) }
{
    if row.column_count() != 5 {
        return Err(ReadFault::Row);
    }
    let number = number_at(row, 0)?;
    let caller = text_at(row, 1)?;
    let key = text_at(row, 2)?;
    let text = text_at(row, 3)?;
    let reply = text_at(row, 4)?;
    Ok(CallColumns {
        number,
        caller,
        key,
        text,
        reply,
    })
}

/// Writes the line of these columns.
fn put_line<W: Write>(columns: &CallColumns<'_>, writer: &mut W) -> Result<(), WriteFailed>
    ensures ok { OnOk result (Appends (W.contents writer.old) (W.contents writer.new)
        (line_of columns.now.number columns.now.caller.now columns.now.key.now
        columns.now.text.now columns.now.reply.now)) }
    ensures err { OnErr result (AppendsBeginning (W.contents writer.old) (W.contents writer.new)
        (line_of columns.now.number columns.now.caller.now columns.now.key.now
        columns.now.text.now columns.now.reply.now)) }
{
    let mut digits = Buffer::new();
    let slices: [&[u8]; 10] = [
        digits.format(columns.number).as_bytes(),
        b"\t",
        columns.caller,
        b"\t",
        columns.key,
        b"\t",
        columns.text,
        b"\t",
        columns.reply,
        b"\n",
    ];
    put_each(&slices, writer)
}

/// A call, as its line in the minutes.
#[derive(Drop)]
struct MinuteLine;

impl RowForm for MinuteLine {
    ghost spells = { λ _. IsPart columns_row line };

    fn put<W: Write>(&self, _alloc: Global, row: &Row, writer: &mut W) -> Result<(), ExportFault> {
        let columns = columns_of(row)?;
        put_line(&columns, writer)?;
        Ok(())
    }
}

/// Writes a line for each call, the first first.
pub(crate) fn put_minutes<S: Alter, W: Write>(
    alloc: Global,
    conn: &mut Connection<S>,
    writer: &mut W,
) -> Result<(), ExportFault>
    ensures { Exports S.Store conn.old conn.new
        (W.contents writer.old) (W.contents writer.new) result minutes_text }
{
    put_rows(alloc, conn, SELECT_CALLS, &[], &MinuteLine, writer)
}
