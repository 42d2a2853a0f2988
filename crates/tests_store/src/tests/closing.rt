//! A desk over two files: closed, and opened again from the files that its close returned.
use super::asking::answered;
use super::founding::{made, made_beside, opened, run};
use super::*;
use sqlite::{FileStore, Files, Options};
use sqlite_disk::{Crash, Disk, Memory as MemoryFile};

/// The log is copied into the database file early: at each sync a file in memory is copied whole.
pub(super) const OPTIONS: Options = Options {
    cache_pages: 2_000,
    spill_pages: 2_000,
    checkpoint_frames: 16,
    seed: 1,
};

/// A file in memory.
pub(super) trait Empty: Crash + Drop {
    /// One without bytes.
    fn empty(alloc: Global) -> Self;
}

impl Empty for MemoryFile {
    fn empty(alloc: Global) -> MemoryFile {
        MemoryFile::new(alloc)
    }
}

/// Two files without bytes.
pub(super) fn empty_files<D: Empty>(alloc: Global) -> Files<D> {
    Files {
        log: D::empty(alloc),
        db: D::empty(alloc),
    }
}

/// A connection to the files.
fn connected<D: Disk + Drop>(alloc: Global, files: Files<D>) -> Option<Connection<FileStore<D>>> {
    if !files.may_be_used() {
        return None;
    }
    Connection::open_files(alloc, files, OPTIONS).ok()
}

/// The files of the desk, once it is closed.
pub(super) fn closed<D: Disk + Drop>(desk: Desk<FileStore<D>>) -> Option<Files<D>> {
    desk.close().ok()
}

/// The database file alone, with this log.
fn with_log<D: Disk + Drop>(files: Files<D>, log: D) -> Files<D> {
    let Files { log: _, db } = files;
    Files { log, db }
}

/// A desk without calls over two files.
pub(super) fn new_desk<D: Empty>(alloc: Global) -> Option<Desk<FileStore<D>>> {
    made(alloc, connected(alloc, empty_files(alloc))?)
}

/// The desk of the database file that the closed desk leaves, with an empty log.
pub(super) fn opened_again<D: Empty>(
    alloc: Global,
    desk: Desk<FileStore<D>>,
) -> Option<Desk<FileStore<D>>> {
    let files = with_log(closed(desk)?, D::empty(alloc));
    opened(alloc, connected(alloc, files)?)
}

/// Whether the desk gives the call of a line the answer after it.
fn answers<S: Alter + Drop>(alloc: Global, desk: &mut Desk<S>, line: &str) -> bool {
    let (given, wanted) = line.split_once(" : ").unwrap_or((line, ""));
    match answered(alloc, desk, given) {
        Some(told) => told.as_str() == wanted,
        None => false,
    }
}

/// Whether a desk that is then dropped does.
fn answers_once<S: Alter + Drop>(alloc: Global, desk: Desk<S>, line: &str) -> bool {
    let mut desk = desk;
    answers(alloc, &mut desk, line)
}

/// The desk after the call of a line, and whether it gave the answer after it.
fn after<S: Alter + Drop>(alloc: Global, desk: Desk<S>, line: &str) -> (Desk<S>, bool) {
    let mut desk = desk;
    let is_so = answers(alloc, &mut desk, line);
    (desk, is_so)
}

/// The desk after the calls of a script, if it gave each the answer after it.
pub(super) fn if_it_answers<S: Alter + Drop>(
    alloc: Global,
    desk: Desk<S>,
    script: &str,
) -> Option<Desk<S>> {
    let mut desk = desk;
    for line in script.lines() {
        if !answers(alloc, &mut desk, line) {
            return None;
        }
    }
    Some(desk)
}

/// A person is added.
pub(super) const ADDED: &str = "console p1 add ann officer 1 : added ann";

/// The person lists a digest.
pub(super) const LISTED: &str = "ann a1 list 1 : listed";

/// Whether a desk over two files, closed and opened again with an empty log, has the person who was
/// added before its close.
fn goes_on<D: Empty>(alloc: Global) -> Option<bool> {
    let (desk, is_added) = after(alloc, new_desk::<D>(alloc)?, ADDED);
    let is_there = answers_once(alloc, opened_again(alloc, desk)?, LISTED);
    Some(is_added && is_there)
}

#[test]
fn a_closed_desk_opens_again_without_its_log(rt: HostRuntime) -> Result<(), Fail> {
    let is_there = goes_on::<MemoryFile>(rt.alloc()).ok_or("a desk over files")?;
    assert!(rt; is_there, "the person is there");
    Ok(())
}

/// A table of others, with one row.
const OTHERS: &str = "\
CREATE TABLE note (id INTEGER PRIMARY KEY, body TEXT)
INSERT INTO note VALUES (1, 'kept')";

/// A desk without calls over two files, beside that table.
fn desk_beside<D: Empty>(alloc: Global) -> Option<Desk<FileStore<D>>> {
    made_beside(alloc, connected(alloc, empty_files(alloc))?, OTHERS)
}

/// The text in the others' row, in the store of a desk that is then dropped.
fn body<S: Alter + Drop>(alloc: Global, desk: Desk<S>) -> Option<String> {
    run(alloc, &mut desk.release(), "SELECT body FROM note")
}

/// The others' text after a desk beside it was closed, and was opened again with an empty log, if
/// the desk has the person who was added before its close.
fn stays_beside<D: Empty>(alloc: Global) -> Option<String> {
    let desk = if_it_answers(alloc, desk_beside::<D>(alloc)?, ADDED)?;
    let desk = if_it_answers(alloc, opened_again(alloc, desk)?, LISTED)?;
    body(alloc, desk)
}

#[test]
fn a_desk_over_files_stays_beside_another_table(rt: HostRuntime) -> Result<(), Fail> {
    let told = stays_beside::<MemoryFile>(rt.alloc()).ok_or("a desk over files")?;
    assert!(rt; told.as_str() == "kept", "the others' row");
    Ok(())
}
