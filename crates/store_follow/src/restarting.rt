//! A stop of the machine after a run, and the opening after it.
ghost use Rattle.std.specs.Prelude.{All, List, IfOk, IsTrue};
ghost use Rattle.sqlite.specs.Files.{file_state, over_files};
ghost use Rattle.sqlite.specs.State.{HasCleanDisk};
ghost use Rattle.desk_history.specs.Formed.{IsItem};
ghost use Rattle.desk_history.specs.Lives.{Life, events_of};
ghost use Rattle.store_desk.specs.Headline.{Seen};
ghost use Rattle.store_minutes.specs.Starts.{Start};
ghost use Rattle.store_follow.specs.Living.{IsRecoveredAfterRun, LeadsTo};
ghost use Rattle.store_follow.specs.Restarting.{RunIsFoundAgain};
ghost use Rattle.store_follow.specs.Runs.{LeavesRun};

use base::Refusal;
use sqlite::{Connection, FileStore, Files, Options};
use sqlite_disk::{Crash, Disk};
use std::alloc::Global;
use store_desk::Desk;

/// The files of a store after the machine stops: each has the contents that its disk leaves.
fn files_after_crash<D: Crash + Drop>(conn: Connection<FileStore<D>>) -> Files<D>
    ensures log { IsTrue (D.Disk.is_usable result.log) }
    ensures db { IsTrue (D.Disk.is_usable result.db) }
    ensures found { RunIsFoundAgain D.Disk conn result }
{
    let mut files = conn.into_store().close();
    files.log.crash();
    files.db.crash();
    files
}

/// The machine stops after a run of `follow`, or within it, and the desk's files are opened again,
/// each with the contents that its disk leaves. The connection is the one that the run returned, or
/// its desk's. The desk that is then opened has the history of before, or one that extends it by
/// the next lines: it keeps all that was answered Ok before the run. A stop within the run is one
/// at its end on a disk that failed from some write on. No program has a disk that can `Crash`:
/// this is for theorems and tests. Takes memory.
///
/// A refusal is that of `Desk::open`, or `Store` if the files didn't open.
pub fn restart_after_run<D: Crash + Drop>(
    alloc: Global,
    conn: Connection<FileStore<D>>,
    options: Options,
) -> Result<Desk<FileStore<D>>, Refusal>
    ensures keeps { IfOk result (λ desk. HasCleanDisk (file_state desk.conn)
        → (s : Start) (before : List Life) (seen : Seen)
        → All (λ e. IsItem e.item) (events_of before) → LeadsTo before seen s
        → LeavesRun (file_state conn) s
        → ∥ IsRecoveredAfterRun s before seen over_files desk ∥₁) }
{
    let files = files_after_crash(conn);
    let conn = match Connection::open_files(alloc, files, options) {
        Ok(conn) => conn,
        Err(_) => return Err(Refusal::Store),
    };
    match Desk::open(alloc, conn) {
        Ok(desk) => Ok(desk),
        Err((refusal, _)) => Err(refusal),
    }
}
