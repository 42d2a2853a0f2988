//! The work of a subcommand on the desk in a file. A `Work` is written for any store, since the
//! types of the system's files are costly to prove with.
ghost use Rattle.std.specs.Prelude.{◌≡◌, ◌⊎◌, Result, None, IfErr, IfOk, IfSome, OnErr, OnOk};
ghost use Rattle.sqlite.specs.Files.{over_files};
ghost use Rattle.sqlite.specs.Store.{Ghosts};
ghost use Rattle.cli_output.specs.Faults.{IsRow};
ghost use Rattle.cli_output.specs.declared.ending.WorkOutcome.{WorkOutcome as Came};
ghost use Rattle.cli_output.specs.declared.fault.Fault.{Fault as Row};
ghost use Rattle.store_desk.specs.declared.desk.Desk.{Desk as Shown};
ghost use Rattle.cli_opening.specs.Faults.{IsClosingRefusal, IsLasting, IsMakingRefusal};
ghost use Rattle.cli_opening.specs.Faults.{IsOfOpening, IsOpeningRefusal};
ghost use Rattle.cli_opening.specs.Leaving.{ending_of};
ghost use Rattle.cli_opening.specs.Refusing.{IsNotMade};
ghost use Rattle.cli_opening.specs.Works.{IsUnopened, LeavesUnopened, MakesDesk};
ghost use Rattle.cli_opening.specs.Works.{WorksLeaving, WorksOn, WorksOnLeaving};

use crate::closing::close_after;
use crate::connecting::CacheSize;
use crate::desk_file::{make, open};
use crate::ended::Ended;
use base::Guid;
use cli_output::{Ending, Fault, WorkOutcome};
use sqlite::{Alter, FileFrom, FileStore, Start};
use sqlite_disk::Disk;
use store_desk::Desk;

/// A desk, and the result of a subcommand's work on it.
pub struct Worked<S: Alter> {
    pub desk: Desk<S>,
    pub work: Result<WorkOutcome, Fault>,
}

/// The work of a subcommand on an open desk, over any store.
pub trait Work: Drop {
    /// What it writes to.
    type Output;

    /// What it does: of the output before and after it, the desk before and after it, and its
    /// result.
    ghost does: { (S : Type 0) → Ghosts S → Self → Self.Output → Self.Output
        → Shown S → Shown S → Result Came Row → Type 0 };

    /// The property of the output once it has this outcome.
    ghost leaves: { Self.Output → Came → Type 0 };

    /// The faults that stop it.
    ghost stops: { Row → Type 0 };

    /// Does it, and returns the desk.
    fn work<S: Alter + Drop>(
        self,
        rt: &HostRuntime,
        desk: Desk<S>,
        output: &mut Self::Output,
    ) -> Worked<S>
        ensures did { does S S.Store self output.old output.new desk result.desk result.work }
        ensures left { IfOk result.work (leaves output.new) }
        ensures named { IfErr result.work stops }

        // None of its faults is one that only an opening gives.
        ensures apart { IfErr result.work (λ fault. IsOfOpening fault.refusal → ⊥) };
}

/// Does the work on an open desk over files, and closes it.
fn work_at<D: Disk + Drop, W: Work>(
    rt: &HostRuntime,
    desk: Desk<FileStore<D>>,
    work: W,
    output: &mut W::Output,
) -> Ended<D>
    ensures did { WorksLeaving D.Disk (W.Work.does _ over_files work output.old output.new desk)
        (ending_of result) result.left.rest }
    ensures left { IfOk result.work (W.Work.leaves output.new) }
    ensures named { IfErr result.work W.Work.stops }
    ensures apart { IfErr result.work (λ fault. IsOfOpening fault.refusal → ⊥) }
    ensures closing { IfSome result.closing (IsRow IsClosingRefusal) }
    ensures let_go { IfErr result.work (λ fault. IsLasting fault.refusal → result.closing ≡ None) }
{
    let Worked { desk, work } = work.work(rt, desk, output);
    close_after(desk, work)
}

/// Does the work on the desk in a file, and closes it. A desk of version 1 becomes one of
/// version 2. What is left of the desk's files is returned.
///
/// The faults are those of `on_desk`.
pub fn work_on_desk<S: Start, W: Work>(
    rt: &HostRuntime,
    path: &str,
    start: S,
    room: CacheSize,
    work: W,
    output: &mut W::Output,
) -> Ended<FileFrom<S>>
    ensures did { (LeavesUnopened ⟦<FileFrom<S> as Disk>⟧ S.Start (ending_of result)
        result.left.rest × (output.new ≡ output.old))
        ⊎ WorksOnLeaving ⟦<FileFrom<S> as Disk>⟧ S.Start
        (W.Work.does _ over_files work output.old output.new) (ending_of result)
        result.left.rest }
    ensures left { IfOk result.work (W.Work.leaves output.new) }
    ensures named { IfErr result.work (λ fault.
        IsRow IsOpeningRefusal fault ⊎ W.Work.stops fault) }
    ensures first { IfErr result.work (λ fault. IsOfOpening fault.refusal
        → (result.closing ≡ None) × (output.new ≡ output.old)) }
    ensures closing { IfSome result.closing (IsRow IsClosingRefusal) }
    ensures let_go { IfErr result.work (λ fault. IsLasting fault.refusal → result.closing ≡ None) }
{
    match open(rt, path, start, room) {
        Ok(desk) => work_at(rt, desk, work, output),
        Err((refusal, left)) => Ended::without_desk(refusal, left),
    }
}

/// Does the work on the desk in a file, closes it, and lets go of what is left. A desk of version 1
/// becomes one of version 2.
///
/// The faults of the desk's file come first. File: the file doesn't exist, can't be opened, isn't a
/// database, or is in use. NotADesk, Version: it holds no desk that this program knows. NoMemory:
/// memory was refused. Store: the store failed. Then come the faults of the work. A close that
/// fails has its own (`closing`).
pub fn on_desk<S: Start, W: Work>(
    rt: &HostRuntime,
    path: &str,
    start: S,
    room: CacheSize,
    work: W,
    output: &mut W::Output,
) -> Ending
    ensures did { (IsUnopened ⟦<FileFrom<S> as Disk>⟧ S.Start result × (output.new ≡ output.old))
        ⊎ WorksOn ⟦<FileFrom<S> as Disk>⟧ S.Start
        (W.Work.does _ over_files work output.old output.new) result }
    ensures left { IfOk result.work (W.Work.leaves output.new) }
    ensures named { IfErr result.work (λ fault.
        IsRow IsOpeningRefusal fault ⊎ W.Work.stops fault) }
    ensures first { IfErr result.work (λ fault. IsOfOpening fault.refusal
        → (result.closing ≡ None) × (output.new ≡ output.old)) }
    ensures closing { IfSome result.closing (IsRow IsClosingRefusal) }
    ensures let_go { IfErr result.work (λ fault. IsLasting fault.refusal → result.closing ≡ None) }
{
    work_on_desk(rt, path, start, room, work, output).ending()
}

/// Makes a desk with this owner and without calls in a file. One that doesn't exist is created, and
/// its user alone may read it. What is left of the desk's files is returned.
///
/// Exists: the file has a table, an index or a view with a name of the desk's already. File: it
/// can't be opened or created, isn't a database, or is in use. NoMemory: memory was refused. Store:
/// the store failed. A close that fails has its own fault (`closing`).
pub fn make_desk<S: Start>(
    rt: &HostRuntime,
    path: &str,
    start: S,
    owner: &Guid,
) -> Ended<FileFrom<S>>
    ensures done { IfOk result.work (λ outcome. outcome ≡ WorkOutcome.Done) }
    ensures named { IfErr result.work (IsRow IsMakingRefusal) }
    ensures made { OnOk result.work (MakesDesk ⟦<FileFrom<S> as Disk>⟧ S.Start owner.now result) }
    ensures unmade { IfErr result.work (λ fault. IsNotMade ⟦<FileFrom<S> as Disk>⟧ S.Start owner.now
        fault.refusal result.left.rest) }
    ensures first { OnErr result.work (result.closing ≡ None) }
    ensures closing { IfSome result.closing (IsRow IsClosingRefusal) }
{
    match make(rt, path, start, owner) {
        Ok(desk) => close_after(desk, Ok(WorkOutcome::Done)),
        Err((refusal, left)) => Ended::without_desk(refusal, left),
    }
}
