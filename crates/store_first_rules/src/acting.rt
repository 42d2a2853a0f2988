//! One call by the first rules, in one transaction.
ghost use Rattle.std.specs.Prelude.{◌≡◌, ℕ, List, IfErr, IfNone, IfOk};
ghost use Rattle.sqlite.specs.Held.{state};
ghost use Rattle.sqlite.specs.State.{HasCleanDisk, Survives};
ghost use Rattle.desk_history.specs.Calls.{History};
ghost use Rattle.store_reads.specs.Failures.{IsFailure};
ghost use Rattle.store_schema.specs.rows.Histories.{ShowsHistory};
ghost use Rattle.store_sql.specs.States.{CommitsNothing, DoesInside, Spares, StaysInside};
ghost use Rattle.store_first_rules.specs.Acts.{ActsFirst, LeavesFollowed, RunsFirst};

use crate::deciding::changes_if_accepted;
use crate::viewing::first_view;
use crate::writing::write_first;
use base::Refusal;
use desk_minutes::is_same_reply;
use desk_rules::CallRef;
use desk_types::Reply;
use sqlite::{Alter, Connection, Transaction};
use std::alloc::Global;
use store_decision_rows::Remembered;
use store_sql::StoreFault;

/// The call inside its transaction: a call that the first rules accept with this reply has its rows
/// written, and counts as one of theirs; what the desk remembers after it. `None`: it isn't
/// accepted, or with another reply, and nothing is written.
fn act<S: Alter>(
    alloc: Global,
    tx: &mut Transaction<'_, S>,
    remembered: &Remembered,
    call: &CallRef<'_>,
    told: &Reply,
) -> Result<Option<Remembered>, Refusal>
    ensures same_reference { tx.new.conn.ghost_name ≡ tx.old.conn.ghost_name }
    ensures value { DoesInside S.Store tx.old.conn.now tx.new.conn.now result
        (ActsFirst remembered.now call.now told.now) }
    ensures failed { IfErr result IsFailure }
    ensures inside { StaysInside S.Store tx.old.conn.now tx.new.conn.now result }
    ensures kept { CommitsNothing S.Store tx.old.conn.now tx.new.conn.now }
    ensures survives { Spares S.Store tx.old.conn.now tx.new.conn.now }
{
    let view = match first_view(alloc, tx, remembered, call) {
        Ok(view) => view,
        Err(failure) => return Err(failure),
    };
    let changes = match changes_if_accepted(alloc, &view, call) {
        Ok(Some(changes)) => changes,
        Ok(None) => return Ok(None),
        Err(refusal) => return Err(refusal),
    };
    if !is_same_reply(&changes.reply, told) {
        return Ok(None);
    }
    let later = remembered.after(call.command, &changes.writes);
    let sizes = later.sizes.sizes();
    match write_first(alloc, tx, &changes.writes, sizes.calls) {
        Ok(()) => Ok(Some(later)),
        Err(fault) => Err(fault.refusal()),
    }
}

/// Runs the call in one transaction. Only a call that the first rules accept with this reply is
/// committed, as the last step.
pub(crate) fn run<S: Alter>(
    alloc: Global,
    conn: &mut Connection<S>,
    remembered: &Remembered,
    call: &CallRef<'_>,
    told: &Reply,
) -> Result<Option<Remembered>, Refusal>
    ensures ok { HasCleanDisk (state S.Store conn.new) → IfOk result (λ given.
        RunsFirst remembered.now call.now told.now given
        (state S.Store conn.old) (state S.Store conn.new)) }
    ensures same { HasCleanDisk (state S.Store conn.new) → IfOk result (λ given. IfNone given
        ((owner : List ℕ) (cs : History) → ShowsHistory (state S.Store conn.old) owner cs
        → ShowsHistory (state S.Store conn.new) owner cs)) }
    ensures failed { IfErr result IsFailure }
    ensures idle { IfOk result (λ given. IfNone given (Spares S.Store conn.old conn.new)) }
    ensures survives { Survives (state S.Store conn.old) (state S.Store conn.new)
        (LeavesFollowed (state S.Store conn.old) remembered.now call.now told.now) }
{
    if !conn.is_autocommit() {
        return Err(Refusal::Store);
    }
    let mut tx = conn.transaction();
    let later = match act(alloc, &mut tx, remembered, call, told) {
        Ok(Some(later)) => later,
        Ok(None) => {
            tx.rollback();
            return Ok(None);
        }
        Err(refusal) => return Err(refusal),
    };
    match tx.commit() {
        Ok(()) => Ok(Some(later)),
        Err(error) => Err(StoreFault::from(error).refusal()),
    }
}
