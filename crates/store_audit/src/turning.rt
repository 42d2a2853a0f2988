//! Minutes, followed by the first rules and then by the second.
ghost use Rattle.std.specs.Prelude.{◌≡◌, ◌≢◌, ◌⊎◌, ℕ, List, [], Err, IfErr, IfOk, Some};
ghost use Rattle.sqlite.specs.Held.{state};
ghost use Rattle.sqlite.specs.State.{HasCleanDisk};
ghost use Rattle.desk_history.specs.Calls.{History};
ghost use Rattle.store_reads.specs.Failures.{IsFailure};
ghost use Rattle.store_sql.specs.States.{Spares};
ghost use Rattle.store_desk.specs.Desks.{ShowsDesk};
ghost use Rattle.store_first_rules.specs.Desks.{ShowsFirstDesk};
ghost use Rattle.store_minutes.specs.Faults.{IsCaused};
ghost use Rattle.store_minutes.specs.Starts.{HasFollowedAfter, IsWrongAfter, LeavesFollowed, Start};
ghost use Rattle.store_audit.specs.Rules.{HasBegun, HasFollowedFirst};

use crate::auditing::{FirstEnd, follow_beginning, follow_on};
use base::Refusal;
use sqlite::{Alter, Connection};
use std::alloc::Global;
use std::io::BufRead;
use store_desk::Desk;
use store_first_rules::FirstDesk;
use store_minutes::{AuditFault, LineWatch};

/// A desk that has followed minutes.
#[derive(Drop)]
pub struct Followed<S: Alter> {
    pub desk: Desk<S>,
    /// The number of the desk's calls, or why it stopped before the end of the minutes.
    pub result: Result<u64, AuditFault>,
}

/// Goes on by the second rules after the lines by the first.
fn go_on_by_second<S: Alter + Drop, R: BufRead>(
    alloc: Global,
    first: FirstDesk<S>,
    end: FirstEnd,
    reader: &mut R,
    watch: &mut LineWatch,
    line: &mut Vec<u8>,
) -> Result<Followed<S>, (Refusal, Connection<S>)>
    ensures ok { IfOk result (λ run. HasCleanDisk (state S.Store run.desk.conn)
        → (s : Start) → HasBegun S.Store first s end (R.remaining reader.old) line.old.items
        → IfOk run.result (λ calls. HasFollowedAfter S.Store run.desk s calls (Some []))) }
    ensures wrong { IfOk result (λ run. HasCleanDisk (state S.Store run.desk.conn)
        → (s : Start) → HasBegun S.Store first s end (R.remaining reader.old) line.old.items
        → IfErr run.result (λ fault. (n : ℕ) → fault ≡ AuditFault.Line n
        → IsWrongAfter (ShowsDesk S.Store run.desk s.owner) s n)) }
    ensures stopped { IfOk result (λ run.
        (s : Start) → HasBegun S.Store first s end (R.remaining reader.old) line.old.items
        → LeavesFollowed (state S.Store run.desk.conn) s) }
    ensures failed { IfErr result (λ e.
        (s : Start) → HasBegun S.Store first s end (R.remaining reader.old) line.old.items
        → LeavesFollowed (state S.Store e.1) s) }
    ensures clean { IfOk result (λ run. HasCleanDisk (state S.Store run.desk.conn)
        → HasCleanDisk (state S.Store first.conn)) }
    ensures cleared { IfErr result (λ e. HasCleanDisk (state S.Store e.1)
        → HasCleanDisk (state S.Store first.conn)) }
    ensures caused { IfOk result (λ run. IfErr run.result (IsCaused watch.new)) }
    ensures named { IfErr result (λ e. IsFailure e.0) }
    ensures steady { IfOk result (λ run. run.result ≢ Err (AuditFault.Device Refusal.Read)
        → watch.new ≡ watch.old) }
    ensures kept { IfErr result (λ _. watch.new ≡ watch.old) }
{
    let mut desk = match first.into_desk() {
        Ok(desk) => desk,
        Err(refused) => return Err(refused),
    };
    match follow_on(alloc, &mut desk, end, reader, watch, line) {
        Ok(calls) => Ok(Followed {
            desk,
            result: Ok(calls),
        }),
        Err(fault) => Ok(Followed {
            desk,
            result: Err(fault),
        }),
    }
}

/// Goes on by the second rules, at a wrong line.
fn turned_at<S: Alter + Drop>(
    first: FirstDesk<S>,
    number: u64,
) -> Result<Followed<S>, (Refusal, Connection<S>)>
    ensures result { IfOk result (λ run. run.result ≡ Err (AuditFault.Line number)) }
    ensures shown { IfOk result (λ run. HasCleanDisk (state S.Store run.desk.conn)
        → (owner : List ℕ) (cs : History) → ShowsFirstDesk S.Store first owner cs
        → ShowsDesk S.Store run.desk owner cs) }
    ensures clean { IfOk result (λ run. HasCleanDisk (state S.Store run.desk.conn)
        → HasCleanDisk (state S.Store first.conn)) }
    ensures spared { IfErr result (λ e. (owner : List ℕ) (cs : History)
        → ShowsFirstDesk S.Store first owner cs → Spares S.Store first.conn e.1) }
    ensures cleared { IfErr result (λ e. HasCleanDisk (state S.Store e.1)
        → HasCleanDisk (state S.Store first.conn)) }
    ensures named { IfErr result (λ e. IsFailure e.0) }
{
    match first.into_desk() {
        Ok(desk) => Ok(Followed {
            desk,
            result: Err(AuditFault::Line(number)),
        }),
        Err(refused) => Err(refused),
    }
}

/// Follows the lines of minutes that are left after so many, on a desk of so many calls that were
/// all accepted by the first rules: by these, up to a line that only the second rules give, and by
/// the second from that line on. A refusal returns the connection. Takes memory for one line, and
/// the store's.
///
/// `Line`, in the result: the first line that isn't what the rules give; a last line without a line
/// break is such a line. `Device` there, or a refusal: memory was refused (`NoMemory`), the reader
/// failed (`Read`), the store failed or isn't as a desk left it (`Store`), or it had failed before
/// (`Reopen`).
pub fn follow_from_first<S: Alter + Drop, R: BufRead>(
    alloc: Global,
    desk: FirstDesk<S>,
    before: u64,
    reader: &mut R,
    watch: &mut LineWatch,
    line: &mut Vec<u8>,
) -> Result<Followed<S>, (Refusal, Connection<S>)>
    ensures ok { IfOk result (λ run. HasCleanDisk (state S.Store run.desk.conn)
        → (s : Start) → HasFollowedFirst S.Store desk s before (R.remaining reader.old)
        → IfOk run.result (λ calls. HasFollowedAfter S.Store run.desk s calls (Some []))) }
    ensures wrong { IfOk result (λ run. HasCleanDisk (state S.Store run.desk.conn)
        → (s : Start) → HasFollowedFirst S.Store desk s before (R.remaining reader.old)
        → IfErr run.result (λ fault. (n : ℕ) → fault ≡ AuditFault.Line n
        → IsWrongAfter (ShowsDesk S.Store run.desk s.owner) s n)) }
    ensures stopped { IfOk result (λ run.
        (s : Start) → HasFollowedFirst S.Store desk s before (R.remaining reader.old)
        → LeavesFollowed (state S.Store run.desk.conn) s) }
    ensures failed { IfErr result (λ e.
        (s : Start) → HasFollowedFirst S.Store desk s before (R.remaining reader.old)
        → LeavesFollowed (state S.Store e.1) s) }
    ensures clean { IfOk result (λ run. HasCleanDisk (state S.Store run.desk.conn)
        → HasCleanDisk (state S.Store desk.conn)) }
    ensures cleared { IfErr result (λ e. HasCleanDisk (state S.Store e.1)
        → HasCleanDisk (state S.Store desk.conn)) }
    ensures caused { IfOk result (λ run. IfErr run.result (IsCaused watch.new)) }
    ensures named { IfErr result (λ e. IsCaused watch.new (AuditFault.Device e.0)) }
    ensures steady { IfOk result (λ run. run.result ≢ Err (AuditFault.Device Refusal.Read)
        → watch.new ≡ watch.old) }
    ensures kept { IfErr result (λ e. e.0 ≢ Refusal.Read → watch.new ≡ watch.old) }
{
    let mut first = desk;
    match follow_beginning(alloc, &mut first, before, reader, watch, line) {
        Ok(end) => match go_on_by_second(alloc, first, end, reader, watch, line) {
            Ok(run) => Ok(run),
            Err(refused) => Err(refused),
        },
        Err(AuditFault::Line(number)) => match turned_at(first, number) {
            Ok(run) => Ok(run),
            Err(refused) => Err(refused),
        },
        Err(AuditFault::Device(refusal)) => Err((refusal, first.release())),
    }
}
