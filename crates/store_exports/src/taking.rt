//! Rows that are written as the store gives them.
ghost use Rattle.std.specs.Prelude.{◌≡◌};
ghost use Rattle.sqlite.specs.Values.{bound};
ghost use Rattle.store_exports.specs.Rows.{BeginsRow, PutsRows, WritesRow};

use crate::fault::ExportFault;
use crate::forms::RowForm;
use sqlite::types::ValueRef;
use sqlite::{Alter, Connection, Row};
use std::alloc::Global;
use std::io::Write;
use store_reads::ReadFault;
use store_sql::{Halt, TakesRow, stream};

/// Writes each row that it takes.
#[derive(Drop)]
pub(crate) struct RowWriter<'a, F, W> {
    alloc: Global,
    form: &'a F,
    writer: &'a mut W,
}

impl<F: RowForm, W: Write> TakesRow for RowWriter<'_, F, W> {
    type Fault = ExportFault;

    ghost takes = { λ old row new. (new.writer.ghost_name ≡ old.writer.ghost_name)
        × (new.form.now ≡ old.form.now)
        × WritesRow (F.spells old.form.now row)
        (W.contents old.writer.now) (W.contents new.writer.now) };

    ghost gives_up = { λ old row new. (new.writer.ghost_name ≡ old.writer.ghost_name)
        × BeginsRow (F.spells old.form.now row)
        (W.contents old.writer.now) (W.contents new.writer.now) };

    fn take(&mut self, row: &Row) -> Result<(), ExportFault> {
        self.form.put(self.alloc, row, self.writer)
    }
}

/// Writes each row of the answer by this form. No row is kept.
pub(crate) fn put_rows<S: Alter, F: RowForm, W: Write>(
    alloc: Global,
    conn: &mut Connection<S>,
    sql: &str,
    params: &[ValueRef<'_>],
    form: &F,
    writer: &mut W,
) -> Result<(), ExportFault>
    ensures { PutsRows S.Store (F.spells form.now) sql.now (bound params.now) conn.old conn.new
        (W.contents writer.old) (W.contents writer.new) result }
{
    let mut taker = RowWriter {
        alloc,
        form,
        writer,
    };
    match stream(conn, sql, params, &mut taker) {
        Ok(()) => Ok(()),
        Err(Halt::Store(error)) => Err(ExportFault::Read(ReadFault::from(error))),
        Err(Halt::Taker(fault)) => Err(fault),
    }
}
