//! The level, as SBAT text.
ghost use Rattle.store_exports.specs.Exporting.{Exports, level_with};

use crate::fault::ExportFault;
use crate::forms::LevelLine;
use crate::taking::put_rows;
use sbat::{Stamp, level_head};
use sqlite::{Alter, Connection};
use std::alloc::Global;
use std::io::Write;
use store_schema::SELECT_COMPONENTS;

/// Writes the first line, with this stamp, and a line for each component, ascending by name.
pub(crate) fn put_level<S: Alter, W: Write>(
    alloc: Global,
    conn: &mut Connection<S>,
    stamp: Stamp,
    writer: &mut W,
) -> Result<(), ExportFault>
    ensures { Exports S.Store conn.old conn.new
        (W.contents writer.old) (W.contents writer.new) result (level_with stamp) }
{
    level_head(stamp, writer)?;
    put_rows(alloc, conn, SELECT_COMPONENTS, &[], &LevelLine, writer)
}
