//! A stop of the machine, and the opening after it.
ghost use Rattle.std.specs.Prelude.{◌≡◌, ◌⊎◌, ℕ, All, List, IfErr, IfOk, IsTrue};
ghost use Rattle.sqlite.specs.Files.{IsCleanLeft, LeavesFiles, file_state, image_of, over_files};
ghost use Rattle.sqlite.specs.State.{HasCleanDisk};
ghost use Rattle.sqlite_wal.specs.Reads.{AreClean};
ghost use Rattle.desk_history.specs.Calls.{History};
ghost use Rattle.desk_history.specs.Formed.{IsItem};
ghost use Rattle.desk_history.specs.Lives.{Life, events_of};
ghost use Rattle.store_desk.specs.Living.{and_refused};
ghost use Rattle.store_desk.specs.Headline.{IsRecovered, LeavesLives, Seen};
ghost use Rattle.store_desk.specs.Remains.{HadStore, HadStoreOver, IfRefused, IfUnchecked};
ghost use Rattle.store_desk.specs.Remains.{IfUnopened, IsRefused, files_in, has_store};
ghost use Rattle.store_desk.specs.Reopening.{FilesHold, FilesOutlast, FoundAgain, HasNoSums, HoldOn};
ghost use Rattle.store_desk.specs.Reopening.{IsAfterStop};
ghost use Rattle.store_desk.specs.Steps.{IsReadRefusal};

use crate::desk::Desk;
use crate::opening::found_is_shown;
use crate::remains::Remains;
use base::Refusal;
use sqlite::{Connection, FileStore, Files, Leftover, Options};
use sqlite_disk::{Crash, Disk};
use std::alloc::Global;
use store_sql::stop_leaves_what_is_shown;

/// The files after the machine stops: each has the contents that its disk leaves.
fn after_stop<D: Crash>(mut files: Files<D>) -> Files<D>
    ensures log { IsTrue (D.Disk.is_usable result.log) }
    ensures db { IsTrue (D.Disk.is_usable result.db) }
    ensures left { IsAfterStop D.Disk files result }
{
    files.log.crash();
    files.db.crash();
    files
}

/// The files of a connection after the machine stops.
fn files_after_crash<D: Crash + Drop>(conn: Connection<FileStore<D>>) -> Files<D>
    ensures log { IsTrue (D.Disk.is_usable result.log) }
    ensures db { IsTrue (D.Disk.is_usable result.db) }
    ensures found { FoundAgain D.Disk conn result }
{
    after_stop(conn.into_store().close())
}

/// Whether there was a store over the files.
fn has_store<D: Disk>(left: &Leftover<D>) -> bool
    ensures { result ≡ has_store left.now }
{
    match left {
        Leftover::Files(_) => false,
        Leftover::Unopened(_) => false,
        Leftover::Store(_) => true,
    }
}

/// The files of which an opening failed, after the machine stops.
fn unopened<D: Crash + Drop>(left: Leftover<D>) -> Remains<D>
    ensures log { IsTrue (D.Disk.is_usable (files_in result).log) }
    ensures db { IsTrue (D.Disk.is_usable (files_in result).db) }
    ensures unopened { IfUnopened result (λ now. (files : Files D)
        → (IsCleanLeft left → LeavesFiles files left) → HoldOn D.Disk files now) }
    ensures unchecked { IfUnchecked result (HadStore D.Disk left) }
    ensures unrefused { IfRefused result (λ _. ⊥) }
{
    let has_store = has_store(&left);
    let files = after_stop(left.into_files());
    if has_store {
        Remains::Unchecked(files)
    } else {
        Remains::Unopened(files)
    }
}

/// Opens the desk in these files. An opened desk keeps all that was answered Ok in any of the lives
/// before. If none is opened, the machine stops: the files that are returned are what the disks
/// leave then. Where a desk was refused, they hold what the files held before, after one more life,
/// which wasn't opened. So do files that weren't opened, if they were clean and no sums end their
/// pages (SQLite's cksumvfs). Takes memory.
///
/// A refusal is that of `Desk::open`, or `Store` if the files didn't open.
pub fn reopen<D: Crash + Drop>(
    alloc: Global,
    files: Files<D>,
    options: Options,
) -> Result<Desk<FileStore<D>>, (Refusal, Remains<D>)>
    requires log { IsTrue (D.Disk.is_usable files.log) }
    requires db { IsTrue (D.Disk.is_usable files.db) }
    ensures keeps { IfOk result (λ desk. HasCleanDisk (file_state desk.conn)
        → (owner : List ℕ) (lives : List Life) (seen : Seen)
        → All (λ e. IsItem e.item) (events_of lives) → FilesHold D.Disk files owner lives seen
        → ∥ ((cs : History) × IsRecovered over_files desk owner lives seen cs) ∥₁) }
    ensures again { IfErr result (λ e. IfRefused e.1 (λ left.
        (owner : List ℕ) (lives : List Life) (seen : Seen)
        → FilesHold D.Disk files owner lives seen
        → FilesOutlast D.Disk left owner (and_refused lives) seen)) }
    ensures unopened { IfErr result (λ e. IfUnopened e.1 (λ left.
        AreClean D.Disk files.log files.db → HasNoSums (image_of D.Disk files)
        → (owner : List ℕ) (lives : List Life) (seen : Seen)
        → FilesOutlast D.Disk files owner lives seen
        → FilesOutlast D.Disk left owner (and_refused lives) seen)) }
    ensures unchecked { IfErr result (λ e. IfUnchecked e.1 (HadStoreOver D.Disk files)) }
    ensures log { IfErr result (λ e. IsTrue (D.Disk.is_usable (files_in e.1).log)) }
    ensures db { IfErr result (λ e. IsTrue (D.Disk.is_usable (files_in e.1).db)) }
    ensures named { IfErr result (λ e. (e.0 ≡ Refusal.Version) ⊎ IsReadRefusal e.0) }
    ensures store { IfErr result (λ e. IsRefused e.1 ⊎ (e.0 ≡ Refusal.Store)) }
{
    let conn = match Connection::open_files(alloc, files, options) {
        Ok(conn) => conn,
        Err((_, left)) => return Err((Refusal::Store, unopened(left))),
    };
    found_is_shown(&conn);
    stop_leaves_what_is_shown(&conn);
    match Desk::open(alloc, conn) {
        Ok(desk) => Ok(desk),
        Err((refusal, conn)) => {
            let left = files_after_crash(conn);
            Err((refusal, Remains::Refused(left)))
        }
    }
}

/// The machine stops here, at any point of the desk's life: the files have the contents that their
/// disks leave, and hold what a stop may leave of the desk. A stop within a call is one at its end
/// on a disk that failed from some write on, since after that write such a call changes nothing. No
/// program has a disk that can `Crash`: this is for theorems and tests.
pub fn stop<D: Crash + Drop>(desk: Desk<FileStore<D>>) -> Files<D>
    ensures log { IsTrue (D.Disk.is_usable result.log) }
    ensures db { IsTrue (D.Disk.is_usable result.db) }
    ensures found { FoundAgain D.Disk desk.conn result }
{
    files_after_crash(desk.release())
}

/// The machine stops, as in `stop`, and the desk's files are opened again, as by `reopen`. The desk
/// that is then opened keeps all that was answered Ok in any of the lives before. Takes memory.
///
/// A refusal is that of `reopen`, and returns files as it does. Of those that weren't opened only
/// `reopen` says what they hold, since that rests on the files between.
pub fn restart<D: Crash + Drop>(
    alloc: Global,
    desk: Desk<FileStore<D>>,
    options: Options,
) -> Result<Desk<FileStore<D>>, (Refusal, Remains<D>)>
    ensures keeps { IfOk result (λ again. HasCleanDisk (file_state again.conn)
        → (owner : List ℕ) (lives : List Life) (seen : Seen)
        → All (λ e. IsItem e.item) (events_of lives)
        → LeavesLives (file_state desk.conn) owner lives seen
        → ∥ ((cs : History) × IsRecovered over_files again owner lives seen cs) ∥₁) }
    ensures again { IfErr result (λ e. IfRefused e.1 (λ left.
        (owner : List ℕ) (lives : List Life) (seen : Seen)
        → LeavesLives (file_state desk.conn) owner lives seen
        → FilesOutlast D.Disk left owner (and_refused lives) seen)) }
    ensures unchecked { IfErr result (λ e. IfUnchecked e.1 (λ left. (files : Files D)
        × FoundAgain D.Disk desk.conn files × HadStoreOver D.Disk files left)) }
    ensures log { IfErr result (λ e. IsTrue (D.Disk.is_usable (files_in e.1).log)) }
    ensures db { IfErr result (λ e. IsTrue (D.Disk.is_usable (files_in e.1).db)) }
    ensures named { IfErr result (λ e. (e.0 ≡ Refusal.Version) ⊎ IsReadRefusal e.0) }
    ensures store { IfErr result (λ e. IsRefused e.1 ⊎ (e.0 ≡ Refusal.Store)) }
{
    reopen(alloc, stop(desk), options)
}
