//! One call, in one transaction.
ghost use Rattle.std.specs.Prelude.{◌≡◌, ◌≢◌, ℕ, List, Some, false, IfErr, IfOk};
ghost use Rattle.sqlite.specs.Held.{state};
ghost use Rattle.sqlite.specs.State.{HasCleanDisk, Survives};
ghost use Rattle.desk_history.specs.Calls.{History};
ghost use Rattle.desk_history.specs.Runs as runs;
ghost use Rattle.store_sql.specs.States.{DoesInside, CommitsNothing, Spares, StaysInside};
ghost use Rattle.store_desk.specs.Acts.{Acts, IsNamed, LeavesNext, Runs};
ghost use Rattle.store_schema.specs.rows.Histories.{ShowsHistory};
ghost use Rattle.store_reads.specs.Failures.{IsFailure};

use base::Refusal;
use desk_history::Answer;
use desk_rules::{CallRef, decide};
use desk_types::Reply;
use sqlite::{Alter, Connection, Transaction};
use std::alloc::Global;
use store_decision_rows::{Remembered, view};
use store_writes::{failed_commit, write_all};

/// The outcome of a call: its answer, and what the desk remembers after it.
#[derive(Drop)]
pub(crate) struct Acted {
    pub(crate) answer: Answer,
    pub(crate) remembered: Remembered,
}

/// Whether the call was accepted, and so has rows to commit.
fn is_accepted(answer: &Answer) -> bool
    ensures { result ≡ runs.is_accepted answer.now }
{
    match answer {
        Answer::Accepted(_) => true,
        Answer::Repeated(_) => false,
        Answer::Refused(_) => false,
    }
}

/// The reply, or the refusal.
pub(crate) fn result_of(answer: Answer) -> Result<Reply, Refusal>
    ensures ok { IfOk result (λ reply. runs.reply_in answer ≡ Some reply) }
    ensures err { IfErr result (λ refusal. answer ≡ Answer.Refused refusal) }
{
    match answer {
        Answer::Accepted(reply) => Ok(reply),
        Answer::Repeated(reply) => Ok(reply),
        Answer::Refused(refusal) => Err(refusal),
    }
}

/// The call inside its transaction: it is answered from the rows that it needs, and an accepted
/// call's rows are written, including its own.
fn act<S: Alter>(
    alloc: Global,
    tx: &mut Transaction<'_, S>,
    remembered: Remembered,
    call: &CallRef<'_>,
) -> Result<Acted, Refusal>
    ensures same_reference { tx.new.conn.ghost_name ≡ tx.old.conn.ghost_name }
    ensures value { DoesInside S.Store tx.old.conn.now tx.new.conn.now result
        (Acts remembered call.now) }
    ensures inside { StaysInside S.Store tx.old.conn.now tx.new.conn.now result }
    ensures named { IfOk result (λ acted. IsNamed acted.answer) }
    ensures failed { IfErr result IsFailure }
    ensures kept { CommitsNothing S.Store tx.old.conn.now tx.new.conn.now }
    ensures survives { Spares S.Store tx.old.conn.now tx.new.conn.now }
{
    let mut remembered = remembered;
    let view = match view(alloc, tx, &mut remembered, call) {
        Ok(view) => view,
        Err(failure) => return Err(failure),
    };
    remembered.person = None;
    let changes = match decide(alloc, &view, call.caller, call.key, call.command) {
        Ok(changes) => changes,
        Err(refusal) => {
            if refusal == Refusal::NoMemory {
                return Err(refusal);
            }
            return Ok(Acted {
                answer: Answer::Refused(refusal),
                remembered,
            });
        }
    };
    if changes.writes.is_empty() {
        return Ok(Acted {
            answer: Answer::Repeated(changes.reply),
            remembered,
        });
    }
    match write_all(alloc, tx, &changes.writes) {
        Ok(()) => Ok(Acted {
            answer: Answer::Accepted(changes.reply),
            remembered: remembered.after(call.command, &changes.writes),
        }),
        Err(fault) => Err(fault.refusal()),
    }
}

/// Runs the call in one transaction. Only an accepted call is committed, as the last step.
///
/// `NoMemory`: nothing was committed. `Store`: nothing was, or the whole call.
pub(crate) fn run<S: Alter>(
    alloc: Global,
    conn: &mut Connection<S>,
    remembered: Remembered,
    call: &CallRef<'_>,
) -> Result<Acted, Refusal>
    ensures ok { HasCleanDisk (state S.Store conn.new) → IfOk result (λ acted.
        Runs remembered call.now acted
        (state S.Store conn.old) (state S.Store conn.new)) }
    ensures err { HasCleanDisk (state S.Store conn.new) → IfErr result (λ e. e ≢ Refusal.Store
        → (owner : List ℕ) (cs : History) → ShowsHistory (state S.Store conn.old) owner cs
        → ShowsHistory (state S.Store conn.new) owner cs) }
    ensures named { IfOk result (λ acted. IsNamed acted.answer) }
    ensures failed { IfErr result IsFailure }
    ensures unwritten { IfErr result (λ e. e ≢ Refusal.Store → Spares S.Store conn.old conn.new) }
    ensures idle { IfOk result (λ acted. runs.is_accepted acted.answer ≡ false
        → Spares S.Store conn.old conn.new) }
    ensures survives { Survives (state S.Store conn.old) (state S.Store conn.new)
        (LeavesNext (state S.Store conn.old) remembered call.now) }
{
    if !conn.is_autocommit() {
        return Err(Refusal::Store);
    }
    let mut tx = conn.transaction();
    let acted = match act(alloc, &mut tx, remembered, call) {
        Ok(acted) => acted,
        Err(failure) => return Err(failure),
    };
    if is_accepted(&acted.answer) {
        return match tx.commit() {
            Ok(()) => Ok(acted),
            Err(error) => Err(failed_commit(conn, &error).refusal()),
        };
    }
    tx.rollback();
    Ok(acted)
}
