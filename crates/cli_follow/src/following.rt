//! Minutes of an input, followed on the desk in a file. Only `follow_input` names the system's
//! files, whose types are costly to prove with.
ghost use Rattle.std.specs.Prelude.{◌≡◌, ◌⊎◌, None, IfErr, IfOk, IfSome, OnErr, OnOk};
ghost use Rattle.sqlite.specs.Held.{state};
ghost use Rattle.sqlite.specs.State.{HasCleanDisk};
ghost use Rattle.store_follow.specs.Runs.{LeavesRun};
ghost use Rattle.cli_output.specs.Faults.{IsRow};
ghost use Rattle.cli_opening.specs.Faults.{IsClosingRefusal, IsLasting};
ghost use Rattle.cli_follow.specs.Faults.{IsFollowRow, IsOfFinding, IsRunRefusal};
ghost use Rattle.cli_follow.specs.Runs.{AtFoundOrMade, Follows, ForEachStart, IsUnfound, Runs};
ghost use Rattle.cli_follow.specs.Runs.{RunsOn, Tells};

use base::{Guid, Refusal};
use cli_audit::{LineWatch, fault_row, say_told};
use cli_opening::{Ended, Left, Worked, close_after, open_or_make};
use cli_output::{Buffered, WorkOutcome};
use sqlite::{Alter, Connection, FileFrom, FileStore, Start};
use sqlite_disk::Disk;
use std::alloc::Global;
use std::io::{BufRead, BufReader, Read};
use store_desk::Desk;
use store_follow::{Followed, follow};

/// Writes what is printed of a desk after a run, and returns the desk.
fn tell<S: Alter + Drop, W: Buffered>(mut desk: Desk<S>, calls: u64, writer: &mut W) -> Worked<S>
    ensures told { Tells S.Store desk result.desk calls
        (W.contents writer.old) (W.contents writer.new) result.work }
    ensures done { IfOk result.work (λ outcome. outcome ≡ WorkOutcome.Done) }
    ensures flushed { OnOk result.work (W.flushed writer.new) }
{
    match say_told(&mut desk, calls, writer) {
        Ok(()) => Worked {
            desk,
            work: Ok(WorkOutcome::Done),
        },
        Err(fault) => Worked {
            desk,
            work: Err(fault),
        },
    }
}

/// Follows minutes on an open desk, over any store, and writes the lines of an audit of it. A
/// refusal returns the connection of a desk that was lost: its next opening finds what it stored.
fn follow_and_tell<S: Alter + Drop, R: BufRead, W: Buffered>(
    alloc: Global,
    desk: Desk<S>,
    reader: &mut R,
    watch: &mut LineWatch,
    writer: &mut W,
) -> Result<Worked<S>, (Refusal, Connection<S>)>
    ensures ran { IfOk result (λ worked. Runs S.Store desk worked.desk (R.remaining reader.old)
        (W.contents writer.old) (W.contents writer.new) watch.new worked.work) }
    ensures done { IfOk result (λ worked.
        IfOk worked.work (λ outcome. outcome ≡ WorkOutcome.Done)) }
    ensures flushed { IfOk result (λ worked. OnOk worked.work (W.flushed writer.new)) }

    ensures lost { IfErr result (λ e. ForEachStart S.Store desk (R.remaining reader.old)
        (LeavesRun (state S.Store e.1))) }
    ensures cleared { IfErr result (λ e. HasCleanDisk (state S.Store e.1)
        → HasCleanDisk (state S.Store desk.conn)) }
    ensures named { IfErr result (λ e. IsRunRefusal watch.new e.0) }
    ensures silent { OnErr result (writer.new ≡ writer.old) }
{
    match follow(alloc, desk, reader, watch) {
        Ok(run) => {
            let Followed { desk, result } = run;
            match result {
                Ok(calls) => Ok(tell(desk, calls, writer)),
                Err(fault) => Ok(Worked {
                    desk,
                    work: Err(fault_row(fault)),
                }),
            }
        }
        Err(refused) => Err(refused),
    }
}

/// The same over files, and closes the desk. One that was lost isn't closed: its connection is
/// left.
fn follow_and_close<D: Disk + Drop, R: BufRead, W: Buffered>(
    alloc: Global,
    desk: Desk<FileStore<D>>,
    reader: &mut R,
    watch: &mut LineWatch,
    writer: &mut W,
) -> Ended<D>
    ensures ran { RunsOn D.Disk desk (R.remaining reader.old)
        (W.contents writer.old) (W.contents writer.new) watch.new result }
    ensures done { IfOk result.work (λ outcome. outcome ≡ WorkOutcome.Done) }
    ensures flushed { OnOk result.work (W.flushed writer.new) }
    ensures closing { IfSome result.closing (IsRow IsClosingRefusal) }
    ensures let_go { IfErr result.work (λ fault. IsLasting fault.refusal → result.closing ≡ None) }
{
    match follow_and_tell(alloc, desk, reader, watch, writer) {
        Ok(worked) => {
            let Worked { desk, work } = worked;
            close_after(desk, work)
        }
        Err((refusal, conn)) => Ended::without_desk(refusal, Left::unclosed(conn)),
    }
}

/// Follows the minutes of an input on the desk in a file, which is made if it is missing, and
/// prints the lines of an audit of the desk. What is left of the desk's files is returned. Takes
/// memory for one line, and the store's.
///
/// The faults of the desk's file come first. File, NotADesk, Version: no desk is found in it or
/// made. Owner: the desk has another; it was only read, whatever its version. Minute: the place is
/// the first line that isn't that of the desk, or what the rules give; a last line without a line
/// break is such a line. Read: a read failed, or was interrupted. Write: all was followed, and a
/// prefix of the lines may be written. NoMemory: memory was refused. Store: the store failed.
/// Reopen: it had failed before. After a fault the lines that were followed stay.
pub fn follow_input<S: Start, R: Read + Drop, W: Buffered>(
    rt: &HostRuntime,
    db: &str,
    start: S,
    owner: &Guid,
    reader: R,
    watch: &mut LineWatch,
    writer: &mut W,
) -> Ended<FileFrom<S>>
    ensures followed { (IsUnfound ⟦<FileFrom<S> as Disk>⟧ S.Start owner.now result
        × (watch.new ≡ watch.old) × (writer.new ≡ writer.old))
        ⊎ AtFoundOrMade S.Start owner.now (Follows ⟦<FileFrom<S> as Disk>⟧ (R.remaining reader)
        (W.contents writer.old) (W.contents writer.new) watch.new result) }
    ensures done { IfOk result.work (λ outcome. outcome ≡ WorkOutcome.Done) }
    ensures flushed { OnOk result.work (W.flushed writer.new) }
    ensures named { IfErr result.work (IsFollowRow watch.new) }
    ensures first { IfErr result.work (λ fault. IsOfFinding fault.refusal
        → (result.closing ≡ None) × (watch.new ≡ watch.old) × (writer.new ≡ writer.old)) }
    ensures owner { IfErr result.work (λ fault. fault.refusal ≡ Refusal.Owner
        → (watch.new ≡ watch.old) × (writer.new ≡ writer.old)) }
    ensures closing { IfSome result.closing (IsRow IsClosingRefusal) }
    ensures let_go { IfErr result.work (λ fault. IsLasting fault.refusal → result.closing ≡ None) }
{
    let mut reader = match BufReader::new(rt.alloc(), reader) {
        Ok(reader) => reader,
        Err(_) => return Ended::without_desk(Refusal::NoMemory, Left::unused(start)),
    };
    match open_or_make(rt, db, start, owner) {
        Ok(desk) => follow_and_close(rt.alloc(), desk, &mut reader, watch, writer),
        Err((refusal, left)) => Ended::without_desk(refusal, left),
    }
}
