//! A desk's file: made and opened. What is proved of it holds whatever the file and its log held at
//! first: `start` names that (specs/Opening.antt).
ghost use Rattle.std.specs.Prelude.{◌≡◌, IfErr, IfOk, IsTrue, false};
ghost use Rattle.store_schema.specs.Tables.{no_schema};
ghost use Rattle.cli_output.specs.Faults.{IsFileRefusal};
ghost use Rattle.cli_opening.specs.Faults.{IsFindingRefusal, IsMakingRefusal, IsOpeningRefusal};
ghost use Rattle.cli_opening.specs.Opening.{FindsOrMakes, IsFoundOrMade, IsMade, IsOpened, Makes, Opens};
ghost use Rattle.cli_opening.specs.Refusing.{IsNotFound, IsNotMade, IsNotOpened};
ghost use Rattle.cli_opening.specs.Refusing.{RefusesDesk, RefusesFinding, RefusesMaking};
ghost use Rattle.cli_opening.specs.Refusing.{RefusesOwned};

use crate::connecting::{CacheSize, connected};
use crate::left::Left;
use base::{Guid, Refusal};
use sqlite::{Alter, Connection, FileFrom, FileStore, Start};
use sqlite_disk::Disk;
use sqlite_schema::schema::Schema;
use std::alloc::Global;
use std::fs::OpenOptions;
use std::os::unix::fs::OpenOptionsExt;
use std::{fs, io};
use store_desk::{Desk, found_is_shown};
use store_sql::stop_leaves_what_is_shown;

/// The mode of a desk's file: its user alone may read and write it.
const PRIVATE: u32 = 0o600;

/// A desk in a file.
pub type FileDesk<S> = Desk<FileStore<FileFrom<S>>>;

/// Whether there is something at a path.
fn is_there(rt: &HostRuntime, path: &str) -> Result<bool, Refusal>
    ensures { IfErr result IsFileRefusal }
{
    match fs::exists(rt, path) {
        Ok(there) => Ok(there),
        Err(error) if error.kind() == io::ErrorKind::OutOfMemory => Err(Refusal::NoMemory),
        Err(_) => Err(Refusal::File),
    }
}

/// Makes an empty file that its user alone may read and write, if there is nothing at the path.
fn make_private(rt: &HostRuntime, path: &str) -> Result<(), Refusal>
    ensures { IfErr result IsFileRefusal }
{
    match OpenOptions::new()
        .write(true)
        .create_new(true)
        .mode(PRIVATE)
        .open(rt, path)
    {
        Ok(_) => Ok(()),
        Err(error) if error.kind() == io::ErrorKind::AlreadyExists => Ok(()),
        Err(error) if error.kind() == io::ErrorKind::OutOfMemory => Err(Refusal::NoMemory),
        Err(_) => Err(Refusal::File),
    }
}

/// Makes a desk over a connection. A refusal returns it.
fn make_over<S: Alter + Drop>(
    alloc: Global,
    conn: Connection<S>,
    owner: &Guid,
) -> Result<Desk<S>, (Refusal, Connection<S>)>
    requires { conn.in_transaction ≡ false }
    ensures made { IfOk result (Makes S.Store conn owner.now) }
    ensures refused { IfErr result (λ e. RefusesMaking S.Store conn owner.now e.0 e.1) }
    ensures named { IfErr result (λ e. IsMakingRefusal e.0) }
{
    match Desk::create(alloc, conn, owner) {
        Ok(desk) => Ok(desk),
        Err((refusal, unmade)) => Err((refusal, unmade)),
    }
}

/// Makes a desk in an existing file.
fn make_there<S: Start>(
    rt: &HostRuntime,
    path: &str,
    start: S,
    owner: &Guid,
) -> Result<FileDesk<S>, (Refusal, Left<FileFrom<S>>)>
    ensures made { IfOk result (IsMade ⟦<FileFrom<S> as Disk>⟧ S.Start owner.now) }
    ensures refused { IfErr result (λ e.
        IsNotMade ⟦<FileFrom<S> as Disk>⟧ S.Start owner.now e.0 e.1.rest) }
    ensures named { IfErr result (λ e. IsMakingRefusal e.0) }
{
    match connected(rt, path, CacheSize::AsItIs, start) {
        Ok(conn) => match make_over(rt.alloc(), conn, owner) {
            Ok(desk) => Ok(desk),
            Err((refusal, unmade)) => Err((refusal, Left::unclosed(unmade))),
        },
        Err((refusal, left)) => Err((refusal, left)),
    }
}

/// Makes a desk in a file. One that doesn't exist is created, for its user alone, and so is its
/// log. A refusal returns what is left of the file.
///
/// `File`, `NoMemory`: as for `connect`. Then as for `Desk::create`: `Exists`: a table, an index or
/// a view has a name of the desk's tables. `NoMemory`: memory was refused. `Store`: the store
/// failed.
pub fn make<S: Start>(
    rt: &HostRuntime,
    path: &str,
    start: S,
    owner: &Guid,
) -> Result<FileDesk<S>, (Refusal, Left<FileFrom<S>>)>
    ensures made { IfOk result (IsMade ⟦<FileFrom<S> as Disk>⟧ S.Start owner.now) }
    ensures refused { IfErr result (λ e.
        IsNotMade ⟦<FileFrom<S> as Disk>⟧ S.Start owner.now e.0 e.1.rest) }
    ensures named { IfErr result (λ e. IsMakingRefusal e.0) }
{
    match make_private(rt, path) {
        Ok(()) => make_there(rt, path, start, owner),
        Err(refusal) => Err((refusal, Left::unused(start))),
    }
}

/// Opens the desk of a connection. A refusal returns it.
fn open_over<S: Alter + Drop>(
    alloc: Global,
    conn: Connection<S>,
) -> Result<Desk<S>, (Refusal, Connection<S>)>
    requires { conn.in_transaction ≡ false }
    ensures opened { IfOk result (Opens S.Store conn) }
    ensures refused { IfErr result (λ e. RefusesDesk S.Store conn e.0 e.1) }
    ensures outside { IfErr result (λ e. e.1.in_transaction ≡ false) }
    ensures named { IfErr result (λ e. IsOpeningRefusal e.0) }
{
    found_is_shown(&conn);
    stop_leaves_what_is_shown(&conn);
    match Desk::open(alloc, conn) {
        Ok(desk) => Ok(desk),
        Err((refusal, refused)) => Err((refusal, refused)),
    }
}

/// Opens the desk of a connection, if it has this owner. A refusal returns the connection.
fn open_owned<S: Alter + Drop>(
    alloc: Global,
    conn: Connection<S>,
    owner: &Guid,
) -> Result<Desk<S>, (Refusal, Connection<S>)>
    requires { conn.in_transaction ≡ false }
    ensures opened { IfOk result (Opens S.Store conn) }
    ensures own { IfOk result (λ desk. desk.owner ≡ owner.now) }
    ensures refused { IfErr result (λ e. RefusesOwned S.Store conn owner.now e.0 e.1) }
    ensures outside { IfErr result (λ e. e.1.in_transaction ≡ false) }
    ensures named { IfErr result (λ e. IsFindingRefusal e.0) }
{
    found_is_shown(&conn);
    stop_leaves_what_is_shown(&conn);
    match Desk::open_for(alloc, conn, owner) {
        Ok(desk) => Ok(desk),
        Err((refusal, unopened)) => Err((refusal, unopened)),
    }
}

/// Opens an existing file, and the desk in it.
fn open_there<S: Start>(
    rt: &HostRuntime,
    path: &str,
    start: S,
    room: CacheSize,
) -> Result<FileDesk<S>, (Refusal, Left<FileFrom<S>>)>
    ensures opened { IfOk result (IsOpened ⟦<FileFrom<S> as Disk>⟧ S.Start) }
    ensures refused { IfErr result (λ e.
        IsNotOpened ⟦<FileFrom<S> as Disk>⟧ S.Start e.0 e.1.rest) }
    ensures named { IfErr result (λ e. IsOpeningRefusal e.0) }
{
    match connected(rt, path, room, start) {
        Ok(conn) => match open_over(rt.alloc(), conn) {
            Ok(desk) => Ok(desk),
            Err((refusal, refused)) => Err((refusal, Left::unclosed(refused))),
        },
        Err((refusal, left)) => Err((refusal, left)),
    }
}

/// Opens the desk in a file. One of version 1 becomes one of version 2 (`Desk::open`). A refusal
/// returns what is left of the file.
///
/// `File`: the file doesn't exist, and isn't created; or as for `connect`. `NotADesk`, `Version`:
/// it holds no desk that this program knows. `NoMemory`: memory was refused. `Store`: the store
/// failed.
pub fn open<S: Start>(
    rt: &HostRuntime,
    path: &str,
    start: S,
    room: CacheSize,
) -> Result<FileDesk<S>, (Refusal, Left<FileFrom<S>>)>
    ensures opened { IfOk result (IsOpened ⟦<FileFrom<S> as Disk>⟧ S.Start) }
    ensures refused { IfErr result (λ e.
        IsNotOpened ⟦<FileFrom<S> as Disk>⟧ S.Start e.0 e.1.rest) }
    ensures named { IfErr result (λ e. IsOpeningRefusal e.0) }
{
    match is_there(rt, path) {
        Ok(true) => open_there(rt, path, start, room),
        Ok(false) => Err((Refusal::File, Left::unused(start))),
        Err(refusal) => Err((refusal, Left::unused(start))),
    }
}

/// Whether the schema has no table, no index and no view.
fn is_bare(schema: &Schema) -> bool
    ensures { IsTrue result → schema.now ≡ no_schema }
{
    if !schema.tables.is_empty() {
        return false;
    }
    if !schema.indexes.is_empty() {
        return false;
    }
    schema.views.is_empty()
}

/// The desk of this owner that a connection has; one without calls is made where there is no table
/// at all. A refusal returns the connection. Whether there is one is asked before the opening and
/// after it: no clause of `Desk::open` says that the tables of a refused store stay.
fn found_or_made<S: Alter + Drop>(
    alloc: Global,
    conn: Connection<S>,
    owner: &Guid,
) -> Result<Desk<S>, (Refusal, Connection<S>)>
    requires { conn.in_transaction ≡ false }
    ensures found { IfOk result (FindsOrMakes S.Store conn owner.now) }
    ensures refused { IfErr result (λ e. RefusesFinding S.Store conn owner.now e.0 e.1) }
    ensures named { IfErr result (λ e. IsFindingRefusal e.0) }
{
    let was_bare = is_bare(conn.schema());
    match open_owned(alloc, conn, owner) {
        Ok(desk) => Ok(desk),
        Err((refusal, conn)) => {
            if refusal == Refusal::NotADesk && was_bare && is_bare(conn.schema()) {
                match make_over(alloc, conn, owner) {
                    Ok(desk) => return Ok(desk),
                    Err((again, unmade)) => return Err((again, unmade)),
                }
            }
            Err((refusal, conn))
        }
    }
}

/// The same in an existing file.
fn found_there<S: Start>(
    rt: &HostRuntime,
    path: &str,
    start: S,
    owner: &Guid,
) -> Result<FileDesk<S>, (Refusal, Left<FileFrom<S>>)>
    ensures found { IfOk result (IsFoundOrMade ⟦<FileFrom<S> as Disk>⟧ S.Start owner.now) }
    ensures refused { IfErr result (λ e.
        IsNotFound ⟦<FileFrom<S> as Disk>⟧ S.Start owner.now e.0 e.1.rest) }
    ensures named { IfErr result (λ e. IsFindingRefusal e.0) }
{
    match connected(rt, path, CacheSize::ToGrow, start) {
        Ok(conn) => match found_or_made(rt.alloc(), conn, owner) {
            Ok(desk) => Ok(desk),
            Err((refusal, unfound)) => Err((refusal, Left::unclosed(unfound))),
        },
        Err((refusal, left)) => Err((refusal, left)),
    }
}

/// Opens a file, which is created if it doesn't exist, for its user alone, and the desk in it, if it
/// has this owner; one of version 1 then becomes one of version 2. In a file without tables, indexes
/// and views it makes one with this owner and without calls. A refusal returns what is left of the
/// file.
///
/// `File`: as for `connect`. `NotADesk`, `Version`: the file has tables or views, and no desk that
/// this program knows. `Owner`: the desk has another; it was only read. `NoMemory`: memory was refused. `Store`: the store failed.
pub fn open_or_make<S: Start>(
    rt: &HostRuntime,
    path: &str,
    start: S,
    owner: &Guid,
) -> Result<FileDesk<S>, (Refusal, Left<FileFrom<S>>)>
    ensures found { IfOk result (IsFoundOrMade ⟦<FileFrom<S> as Disk>⟧ S.Start owner.now) }
    ensures refused { IfErr result (λ e.
        IsNotFound ⟦<FileFrom<S> as Disk>⟧ S.Start owner.now e.0 e.1.rest) }
    ensures named { IfErr result (λ e. IsFindingRefusal e.0) }
{
    match make_private(rt, path) {
        Ok(()) => found_there(rt, path, start, owner),
        Err(refusal) => Err((refusal, Left::unused(start))),
    }
}
