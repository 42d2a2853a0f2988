//! A run over minutes: the desk's own are compared, and the others followed.
ghost use Rattle.std.specs.Prelude.{◌≡◌, ℕ, List, [], IfErr, IfOk, OnOk, Some, length};
ghost use Rattle.sqlite.specs.Held.{state};
ghost use Rattle.sqlite.specs.State.{HasCleanDisk};
ghost use Rattle.store_sql.specs.States.{Spares};
ghost use Rattle.store_desk.specs.Desks.{ForEachShown, KeepsDesk, ShowsDesk};
ghost use Rattle.store_minutes.specs.Faults.{IsCaused, IsDeskFailure};
ghost use Rattle.store_minutes.specs.Starts.{HasFollowedAfter, IsWrongAfter, Start};
ghost use Rattle.store_minutes.specs.Comparing.{Begins, HasAll};
ghost use Rattle.store_follow.specs.Runs.{HasRun, IsWrongLine, LeavesRun};

use base::Refusal;
use sqlite::{Alter, Connection};
use std::alloc::Global;
use std::io::BufRead;
use store_audit::{Followed, follow_from_first};
use store_desk::Desk;
use store_first_rules::{FirstDesk, Resumed};
use store_minutes::{AuditFault, Compared, LineWatch, compare, follow_rest};

/// The number of the desk's calls. Nothing changes.
fn count_calls<S: Alter + Drop>(desk: &mut Desk<S>) -> Result<u64, Refusal>
    ensures exact { HasCleanDisk (state S.Store desk.new.conn) → IfOk result (λ calls.
        ForEachShown S.Store desk.old (λ owner cs. length cs ≡ calls)) }
    ensures same { HasCleanDisk (state S.Store desk.new.conn)
        → OnOk result (KeepsDesk S.Store desk.old desk.new) }
    ensures spares { Spares S.Store desk.old.conn desk.new.conn }
    ensures named { IfErr result IsDeskFailure }
{
    match desk.counts() {
        Ok(counts) => Ok(counts.calls),
        Err(refusal) => Err(refusal),
    }
}

/// Follows the lines that are left after those of the desk's calls, which are so many: by the first
/// rules while all its calls are by them and the lines can be, and then by the second. A refusal
/// returns the connection.
fn go_on<S: Alter + Drop, R: BufRead>(
    alloc: Global,
    desk: Desk<S>,
    calls: u64,
    reader: &mut R,
    watch: &mut LineWatch,
    line: &mut Vec<u8>,
) -> Result<Followed<S>, (Refusal, Connection<S>)>
    ensures ok { IfOk result (λ run. HasCleanDisk (state S.Store run.desk.conn)
        → (s : Start) → ShowsDesk S.Store desk s.owner s.earlier
        → HasAll s calls (R.remaining reader.old)
        → IfOk run.result (λ n. HasFollowedAfter S.Store run.desk s n (Some []))) }
    ensures wrong { IfOk result (λ run. HasCleanDisk (state S.Store run.desk.conn)
        → (s : Start) → ShowsDesk S.Store desk s.owner s.earlier
        → HasAll s calls (R.remaining reader.old)
        → IfErr run.result (λ fault. (n : ℕ) → fault ≡ AuditFault.Line n
        → IsWrongAfter (ShowsDesk S.Store run.desk s.owner) s n)) }
    ensures stopped { IfOk result (λ run. (s : Start) → ShowsDesk S.Store desk s.owner s.earlier
        → HasAll s calls (R.remaining reader.old) → LeavesRun (state S.Store run.desk.conn) s) }
    ensures failed { IfErr result (λ e. (s : Start) → ShowsDesk S.Store desk s.owner s.earlier
        → HasAll s calls (R.remaining reader.old) → LeavesRun (state S.Store e.1) s) }
    ensures clean { IfOk result (λ run. HasCleanDisk (state S.Store run.desk.conn)
        → HasCleanDisk (state S.Store desk.conn)) }
    ensures cleared { IfErr result (λ e. HasCleanDisk (state S.Store e.1)
        → HasCleanDisk (state S.Store desk.conn)) }
    ensures caused { IfOk result (λ run. IfErr run.result (IsCaused watch.new)) }
    ensures named { IfErr result (λ e. IsCaused watch.new (AuditFault.Device e.0)) }
{
    match FirstDesk::resume(alloc, desk) {
        Ok(Resumed::First(first)) => {
            match follow_from_first(alloc, first, calls, reader, watch, line) {
                Ok(run) => Ok(run),
                Err(refused) => Err(refused),
            }
        }
        Ok(Resumed::Second(desk)) => {
            let mut desk = desk;
            match follow_rest(alloc, &mut desk, calls, reader, watch, line) {
                Ok(calls) => Ok(Followed {
                    desk,
                    result: Ok(calls),
                }),
                Err(fault) => Ok(Followed {
                    desk,
                    result: Err(fault),
                }),
            }
        }
        Err(refused) => Err(refused),
    }
}

/// Follows minutes on a desk whose own minutes are a beginning of them: each line after those is
/// followed, in a commit of its own. If they are a beginning of the desk's own, nothing changes;
/// the result is the number of its calls. A refusal returns the connection. Takes memory for one
/// line, and the store's. `runs_make_lives` says what a run adds to the lives of the desk.
///
/// `Line`: the first line that isn't that of the desk, or what the rules give; a last line without
/// a line break is such a line. `Device`, or without a desk: memory was refused (`NoMemory`), the
/// reader failed (`Read`), or the store failed (`Store`), or had failed before (`Reopen`).
pub fn follow<S: Alter + Drop, R: BufRead>(
    alloc: Global,
    desk: Desk<S>,
    reader: &mut R,
    watch: &mut LineWatch,
) -> Result<Followed<S>, (Refusal, Connection<S>)>
    ensures ok { IfOk result (λ run. HasCleanDisk (state S.Store run.desk.conn)
        → (s : Start) → Begins S.Store desk s (R.remaining reader.old)
        → IfOk run.result (HasRun S.Store run.desk s)) }
    ensures wrong { IfOk result (λ run. HasCleanDisk (state S.Store run.desk.conn)
        → (s : Start) → Begins S.Store desk s (R.remaining reader.old)
        → IfErr run.result (λ fault. (n : ℕ) → fault ≡ AuditFault.Line n
        → IsWrongLine S.Store desk run.desk s n)) }
    ensures stopped { IfOk result (λ run. (s : Start)
        → Begins S.Store desk s (R.remaining reader.old)
        → LeavesRun (state S.Store run.desk.conn) s) }
    ensures failed { IfErr result (λ e. (s : Start) → Begins S.Store desk s (R.remaining reader.old)
        → LeavesRun (state S.Store e.1) s) }
    ensures clean { IfOk result (λ run. HasCleanDisk (state S.Store run.desk.conn)
        → HasCleanDisk (state S.Store desk.conn)) }
    ensures cleared { IfErr result (λ e. HasCleanDisk (state S.Store e.1)
        → HasCleanDisk (state S.Store desk.conn)) }
    ensures caused { IfOk result (λ run. IfErr run.result (IsCaused watch.new)) }
    ensures named { IfErr result (λ e. IsCaused watch.new (AuditFault.Device e.0)) }
{
    let mut desk = desk;
    let mut line = Vec::new(alloc);
    match compare(&mut desk, reader, watch, &mut line) {
        Ok(Compared::All(calls)) => match go_on(alloc, desk, calls, reader, watch, &mut line) {
            Ok(run) => Ok(run),
            Err(refused) => Err(refused),
        },
        Ok(Compared::Beginning) => match count_calls(&mut desk) {
            Ok(calls) => Ok(Followed {
                desk,
                result: Ok(calls),
            }),
            Err(refusal) => Ok(Followed {
                desk,
                result: Err(AuditFault::Device(refusal)),
            }),
        },
        Err(fault) => Ok(Followed {
            desk,
            result: Err(fault),
        }),
    }
}
