//! Exports of a desk, written row by row as the store gives them.
ghost use Rattle.std.specs.Prelude.{◌≡◌, ◌≢◌, ℕ, List, Err, false, true};
ghost use Rattle.std.specs.Prelude.{IfErr, IsErrOf, OnErr, OnOk};
ghost use Rattle.sqlite.specs.Held.{state};
ghost use Rattle.sqlite.specs.State.{HasCleanDisk};
ghost use Rattle.desk_exports.specs.Exports.{exported};
ghost use Rattle.store_exports.specs.Faults.{IsExportFailure};
ghost use Rattle.store_desk.specs.Desks.{ForEachShown, KeepsDesk};
ghost use Rattle.store_desk.specs.Exports.{SparesDesk, Writes, WritesBeginning};

use crate::desk::Desk;
use base::Refusal;
use desk_exports::Export;
use sqlite::Alter;
use std::io::Write;
use store_exports::export;

impl<S: Alter + Drop> Desk<S> {
    /// Writes an export. Each row is written as the store gives it; the owner and the stamp are those
    /// that the desk has. Takes memory for one row; shim's form for the revoked certificates and
    /// their bodies.
    ///
    /// `Write`: the writer failed. `NoMemory`: memory was refused. `Store`: the store failed, or
    /// isn't as a desk left it. After each the writer holds a prefix of the export, which may be
    /// empty; after `Write` and `NoMemory` the desk shows the same history. `Reopen`: an earlier
    /// call answered `Store`; nothing is written.
    pub fn export<W: Write>(&mut self, what: Export, writer: &mut W) -> Result<(), Refusal>
        ensures ok { HasCleanDisk (state S.Store self.new.conn)
            → OnOk result (ForEachShown S.Store self.old
            (Writes (W.contents writer.old) (W.contents writer.new) (exported what))) }
        ensures beginning { HasCleanDisk (state S.Store self.new.conn)
            → OnErr result (ForEachShown S.Store self.old
            (WritesBeginning (W.contents writer.old) (W.contents writer.new) (exported what))) }
        ensures same { HasCleanDisk (state S.Store self.new.conn) → result ≢ Err Refusal.Store
            → KeepsDesk S.Store self.old self.new }
        ensures spares { SparesDesk S.Store self.old self.new }
        ensures clean { HasCleanDisk (state S.Store self.new.conn)
            → HasCleanDisk (state S.Store self.old.conn) }
        ensures poisons { IsErrOf result Refusal.Store → self.new.needs_reopening ≡ true }
        ensures steady { result ≢ Err Refusal.Store
            → self.new.needs_reopening ≡ self.old.needs_reopening }
        ensures closed { self.old.needs_reopening ≡ true → (result ≡ Err Refusal.Reopen)
            × (self.new ≡ self.old) × (writer.new ≡ writer.old) }
        ensures named { self.old.needs_reopening ≡ false → IfErr result IsExportFailure }
    {
        if self.needs_reopening {
            return Err(Refusal::Reopen);
        }
        let stamp = self.remembered.stamp;
        match export(self.alloc, &mut self.conn, what, self.owner, stamp, writer) {
            Ok(()) => Ok(()),
            Err(failure) => {
                self.needs_reopening = failure == Refusal::Store;
                Err(failure)
            }
        }
    }
}
