//! One export, written row by row.
ghost use Rattle.std.specs.Prelude.{IfErr, OnErr, OnOk};
ghost use Rattle.sqlite.specs.Held.{state};
ghost use Rattle.sqlite.specs.State.{HasCleanDisk};
ghost use Rattle.store_exports.specs.Exporting.{BeginsWhere, ExportsWhere, SparesOf, StaysOf};
ghost use Rattle.store_exports.specs.Exporting.{Suits, WritesWhere, exported_with};
ghost use Rattle.store_exports.specs.Faults.{IsExportFailure};

use crate::db::put_db;
use crate::dbx::put_dbx;
use crate::fault::ExportFault;
use crate::level::put_level;
use crate::lines::put_minutes;
use crate::shim::put_shim;
use base::{Guid, Refusal};
use desk_exports::Export;
use sbat::Stamp;
use sqlite::{Alter, Connection};
use std::alloc::Global;
use std::io::Write;

/// Writes an export.
fn put<S: Alter, W: Write>(
    alloc: Global,
    conn: &mut Connection<S>,
    what: Export,
    owner: Guid,
    stamp: Stamp,
    writer: &mut W,
) -> Result<(), ExportFault>
    ensures { ExportsWhere (Suits what) S.Store conn.old conn.new
        (W.contents writer.old) (W.contents writer.new) result (exported_with what owner stamp) }
{
    match what {
        Export::Db => put_db(alloc, conn, owner, writer),
        Export::Dbx => put_dbx(alloc, conn, owner, writer),
        Export::Shim => put_shim(alloc, conn, owner, writer),
        Export::Level => put_level(alloc, conn, stamp, writer),
        Export::Minutes => put_minutes(alloc, conn, writer),
    }
}

/// Writes an export, with this owner in each entry of dbx, of its form for shim and of db, and this
/// stamp in the level. Each row is written as the store gives it, and none is kept, except for
/// shim's form. Takes memory for one row; the minutes take no memory except the store's. Shim's
/// form takes memory for the digests of the revoked certificates and for their bodies, and for one
/// command's text.
///
/// `Write`: the writer failed. `NoMemory`: memory was refused, to the desk or to the store.
/// `Store`: the store failed, or isn't as a desk left it. After each the writer holds a prefix of
/// the export, which may be empty.
pub fn export<S: Alter, W: Write>(
    alloc: Global,
    conn: &mut Connection<S>,
    what: Export,
    owner: Guid,
    stamp: Stamp,
    writer: &mut W,
) -> Result<(), Refusal>
    ensures ok { HasCleanDisk (state S.Store conn.new)
        → OnOk result (WritesWhere (Suits what) (state S.Store conn.old)
        (W.contents writer.old) (W.contents writer.new) (exported_with what owner stamp)) }
    ensures beginning { HasCleanDisk (state S.Store conn.new)
        → OnErr result (BeginsWhere (Suits what) (state S.Store conn.old)
        (W.contents writer.old) (W.contents writer.new) (exported_with what owner stamp)) }
    ensures named { IfErr result IsExportFailure }

    ensures same { StaysOf (state S.Store conn.old) (state S.Store conn.new) }
    ensures spares { SparesOf S.Store conn.old conn.new }
    ensures clean { HasCleanDisk (state S.Store conn.new) → HasCleanDisk (state S.Store conn.old) }
{
    match put(alloc, conn, what, owner, stamp, writer) {
        Ok(()) => Ok(()),
        Err(fault) => Err(fault.refusal()),
    }
}
