//! The closing of a desk over files.
ghost use Rattle.std.specs.Prelude.{◌≡◌, ◌⊎◌, ℕ, List, false, true};
ghost use Rattle.std.specs.Prelude.{IfErr, IfOk, IsTrue, MatchResult};
ghost use Rattle.sqlite.specs.Files.{file_state, over_files};
ghost use Rattle.sqlite.specs.Tree.{Trees};
ghost use Rattle.sqlite_disk.specs.Disk.{MoreFaults};
ghost use Rattle.sqlite_store.specs.FileStore.{faults, is_shielded, recovers, view};
ghost use Rattle.sqlite_trees.specs.View.{IsClean, IsQuiet};
ghost use Rattle.sqlite_wal.specs.Reads.{AreClean};
ghost use Rattle.store_schema.specs.rows.Histories.{HoldsHistory};
ghost use Rattle.desk_history.specs.Calls.{History};
ghost use Rattle.store_reads.specs.Failures.{IsFailure};
ghost use Rattle.store_desk.specs.Closed.{AreClosed, OpenAgain};
ghost use Rattle.store_desk.specs.Desks.{ShowsDesk};
ghost use Rattle.store_sql.specs.Faults.{fault_of, refusal_of};

use crate::desk::Desk;
use base::Refusal;
use sqlite::{Error, FileStore, Files};
use sqlite_disk::Disk;
use store_sql::StoreFault;

/// The refusal for a close that failed.
fn refusal_of_error(error: Error) -> Refusal
    ensures { result ≡ refusal_of (fault_of error) }
{
    StoreFault::from(error).refusal()
}

impl<D: Disk + Drop> Desk<FileStore<D>> {
    /// Closes the desk: its log is copied into the database file, and both files are returned. A
    /// refusal returns the store instead, with no transaction open; its files (`FileStore::close`)
    /// can be opened again. Takes memory.
    ///
    /// `Reopen`: an earlier call answered `Store`; nothing was copied. `NoMemory`: memory was
    /// refused. `Store`: the store failed. None of these loses an accepted call.
    pub fn close(self) -> Result<Files<D>, (Refusal, FileStore<D>)>
        ensures copied { IfOk result (λ files. AreClean D.Disk files.log files.db
            → (owner : List ℕ) (cs : History) → ShowsDesk over_files self owner cs
            → AreClosed D.Disk files owner cs) }
        ensures found { IfOk result (λ files. (owner : List ℕ) (cs : History)
            → ShowsDesk over_files self owner cs → OpenAgain D.Disk files owner cs) }
        ensures usable { IfOk result (λ files. IsTrue (D.Disk.is_usable files.log)
            × IsTrue (D.Disk.is_usable files.db)) }

        ensures device { IfErr result (λ e. IsClean (view e.1) → e.0 ≡ Refusal.Store
            → ((file_state self.conn).is_open ≡ false)
            ⊎ MoreFaults (faults self.conn.store) (faults e.1)) }
        ensures closed { self.needs_reopening ≡ true
            → MatchResult result (λ _. ⊥) (λ e. e.0 ≡ Refusal.Reopen) }
        ensures named { self.needs_reopening ≡ false → IfErr result (λ e. IsFailure e.0) }

        ensures stopped { IfErr result (λ e. IsClean (view e.1)
            → (owner : List ℕ) (cs : History) → ShowsDesk over_files self owner cs
            → (db : Trees) → recovers e.1 db → HoldsHistory db owner cs) }
        ensures quiet { IfErr result (λ e.
            IsQuiet view faults recovers is_shielded self.conn.store e.1) }
    {
        let Desk {
            conn,
            needs_reopening,
            ..
        } = self;
        if needs_reopening {
            return Err((Refusal::Reopen, conn.into_store()));
        }
        match conn.close_files() {
            Ok(files) => Ok(files),
            Err((error, store)) => Err((refusal_of_error(error), store)),
        }
    }
}
