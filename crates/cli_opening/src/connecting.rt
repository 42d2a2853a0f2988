//! A connection to the file at a path, with room for its pages.
ghost use Rattle.std.specs.Prelude.{◌≡◌, IfErr, IfOk, OnOk, false, true};
ghost use Rattle.cli_output.specs.Faults.{IsFileRefusal};
ghost use Rattle.cli_opening.specs.Pages.{pages_for};
ghost use Rattle.cli_opening.specs.Refusing.{IsLeftRefused};
ghost use Rattle.cli_opening.specs.Unopened.{IsUnconnected};
ghost use Rattle.sqlite.specs.Files.{IsOpened, file_state};
ghost use Rattle.sqlite.specs.Start.{FindsIn};
ghost use Rattle.sqlite.specs.State.{HasCleanDisk};
ghost use Rattle.sqlite_wal.specs.Files.{image_at};

use crate::left::Left;
use crate::opener::Opener;
use base::Refusal;
use sqlite::{Connection, Error, ErrorCode, FileFrom, FileStore, Leftover, Options, Start};
use sqlite_disk::Disk;
use std::fs;
use std::hash::{BuildHasher, RandomState};

/// The pages of a file that the store has room for in memory. It takes this memory at once.
#[derive(Clone, Copy, Debug, PartialEq, Eq)]
pub enum CacheSize {
    /// Those that the file has and 64 more, at most 8,192, of 4,096 bytes each.
    AsItIs,
    /// 8,192, for a file that grows.
    ToGrow,
}

/// The length of a page of a desk's file.
const PAGE: u64 = 4_096;

/// The most pages that the store has room for: 32 MiB of a file, which has some 130,000 accepted
/// calls.
const MOST_PAGES: u64 = 8_192;

/// The pages beyond those that a file has. A new desk has fewer.
const MORE_PAGES: u64 = 64;

/// The pages that the store has room for, where the file has so many bytes.
fn pages(room: CacheSize, bytes: u64) -> u64
    ensures { result ≡ pages_for room bytes }
{
    match room {
        CacheSize::AsItIs => (bytes / PAGE + MORE_PAGES).min(MOST_PAGES),
        CacheSize::ToGrow => MOST_PAGES,
    }
}

/// The length of the file at a path; 0 if it can't be told.
fn length_at(rt: &HostRuntime, path: &str) -> u64 {
    match fs::metadata(rt, path) {
        Ok(found) => found.len(),
        Err(_) => 0,
    }
}

/// A random number for the salts of the log, and the sizes for the store.
fn options(rt: &HostRuntime, pages: u64) -> Result<Options, Refusal>
    ensures pages { IfOk result (λ options. options.cache_pages ≡ pages) }
    ensures named { IfErr result (λ refusal. refusal ≡ Refusal.File) }
{
    let Ok(state) = RandomState::new(rt) else {
        return Err(Refusal::File);
    };
    let mut options = Options::new(state.hash_one(&0u8));
    options.cache_pages = pages as usize;
    Ok(options)
}

/// The row of the table of refusals for a database that couldn't be opened.
fn refusal_of(error: &Error) -> Refusal
    ensures { IsFileRefusal result }
{
    match error {
        Error::SqliteFailure(ErrorCode::OutOfMemory) => Refusal::NoMemory,
        _ => Refusal::File,
    }
}

/// Opens the database in the file at `path`, or creates it; its log is copied into it first. The
/// opener's start names what the two files hold once they are opened and synced, and how a stop is
/// read; no code can read it. It reads and checks the whole file, and takes memory for the pages of
/// `room`. What needs no file comes first. A refusal returns what the store had of the files, if
/// they were opened.
///
/// `File`: the file can't be opened or created, isn't a database, or is in use; or the system gives
/// no random number. `NoMemory`: memory was refused.
fn connect<S: Start>(
    rt: &HostRuntime,
    path: &str,
    room: CacheSize,
    opener: &mut Opener<S>,
) -> Result<Connection<FileStore<FileFrom<S>>>, (Refusal, Option<Leftover<FileFrom<S>>>)>
    requires fresh { opener.old.has_opened ≡ false }
    ensures outside { IfOk result (λ conn. conn.in_transaction ≡ false) }
    ensures opened { IfOk result (λ conn. HasCleanDisk (file_state conn) → IsOpened conn) }
    ensures found { IfOk result (λ conn. HasCleanDisk (file_state conn)
        → FindsIn (image_at S.Start) (file_state conn)) }
    ensures once { OnOk result (opener.new.has_opened ≡ true) }

    ensures left { IfErr result (λ e.
        IsUnconnected ⟦<FileFrom<S> as Disk>⟧ S.Start opener.new.has_opened e.1) }
    ensures named { IfErr result (λ e. IsFileRefusal e.0) }
{
    let options = match options(rt, pages(room, length_at(rt, path))) {
        Ok(options) => options,
        Err(refusal) => return Err((refusal, None)),
    };
    let files = match opener.open(rt, path) {
        Ok(files) => files,
        Err(refusal) => return Err((refusal, None)),
    };
    match Connection::open_files(rt.alloc(), files, options) {
        Ok(conn) => Ok(conn),
        Err((error, left)) => Err((refusal_of(&error), Some(left))),
    }
}

/// Opens the database in the file at `path`, as `connect` does, with an opener of its own. A
/// refusal returns what is left of the files.
pub(crate) fn connected<S: Start>(
    rt: &HostRuntime,
    path: &str,
    room: CacheSize,
    start: S,
) -> Result<Connection<FileStore<FileFrom<S>>>, (Refusal, Left<FileFrom<S>>)>
    ensures outside { IfOk result (λ conn. conn.in_transaction ≡ false) }
    ensures opened { IfOk result (λ conn. HasCleanDisk (file_state conn) → IsOpened conn) }
    ensures found { IfOk result (λ conn. HasCleanDisk (file_state conn)
        → FindsIn (image_at S.Start) (file_state conn)) }
    ensures left { IfErr result (λ e.
        IsLeftRefused ⟦<FileFrom<S> as Disk>⟧ S.Start (λ _. ⊥) e.0 e.1.rest) }
    ensures named { IfErr result (λ e. IsFileRefusal e.0) }
{
    let mut opener = Opener::new(start);
    let conn = match connect(rt, path, room, &mut opener) {
        Ok(conn) => conn,
        Err((refusal, left)) => return Err((refusal, Left::unconnected(opener, left))),
    };
    Ok(conn)
}
