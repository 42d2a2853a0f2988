//! A desk over two files that is opened again after its machine stopped.
use super::closing::{ADDED, Empty, LISTED, OPTIONS, closed, empty_files, if_it_answers, new_desk};
use super::*;
use sqlite::{FileStore, Files};
use sqlite_disk::{Crash, Memory as MemoryFile};
use store_desk::{reopen, restart};

/// The person lists another digest.
const LISTED_NEXT: &str = "ann a2 list 2 : listed";

/// The desk that is opened after its machine stopped, or the name of the refusal.
fn restarted<D: Crash + Drop>(
    alloc: Global,
    desk: Desk<FileStore<D>>,
) -> Result<Desk<FileStore<D>>, &'static str> {
    match restart(alloc, desk, OPTIONS) {
        Ok(desk) => Ok(desk),
        Err((refusal, _)) => Err(refusal.name()),
    }
}

/// The desk that is opened in these files, or the name of the refusal.
fn reopened<D: Crash + Drop>(
    alloc: Global,
    files: Files<D>,
) -> Result<Desk<FileStore<D>>, &'static str> {
    if !files.may_be_used() {
        return Err("a sync has failed");
    }
    match reopen(alloc, files, OPTIONS) {
        Ok(desk) => Ok(desk),
        Err((refusal, _)) => Err(refusal.name()),
    }
}

/// Whether a desk has the person who was added before its machine stopped, and again once it was
/// closed.
fn stays<D: Empty>(alloc: Global) -> Option<bool> {
    let desk = if_it_answers(alloc, new_desk::<D>(alloc)?, ADDED)?;
    let desk = if_it_answers(alloc, restarted(alloc, desk).ok()?, LISTED)?;
    let desk = reopened(alloc, closed(desk)?).ok()?;
    Some(if_it_answers(alloc, desk, LISTED_NEXT).is_some())
}

#[test]
fn a_desk_goes_on_after_its_machine_stopped(rt: HostRuntime) -> Result<(), Fail> {
    let is_there = stays::<MemoryFile>(rt.alloc()).ok_or("a desk over files")?;
    assert!(rt; is_there, "the person is there");
    Ok(())
}

/// The files that are left of files that hold no desk.
fn left_of<D: Empty>(alloc: Global) -> Option<Files<D>> {
    let files = empty_files::<D>(alloc);
    if !files.may_be_used() {
        return None;
    }
    match reopen(alloc, files, OPTIONS) {
        Ok(_) => None,
        Err((_, left)) => Some(left.into_files()),
    }
}

/// The refusal of these files.
fn refusal<D: Empty>(alloc: Global) -> Option<&'static str> {
    reopened(alloc, left_of::<D>(alloc)?).err()
}

#[test]
fn files_without_a_desk_are_refused(rt: HostRuntime) -> Result<(), Fail> {
    let name = refusal::<MemoryFile>(rt.alloc()).ok_or("a desk")?;
    assert!(rt; name == "NotADesk", "the refusal");
    Ok(())
}
