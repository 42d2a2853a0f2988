//! Calls that the second rules accept, and that are no repeats.
ghost use Rattle.std.specs.Prelude.{◌≡◌, ◌≢◌, IfErr, IfNone, IfOk, IfSome};
ghost use Rattle.sqlite.specs.Held.{state};
ghost use Rattle.sqlite.specs.State.{HasCleanDisk};
ghost use Rattle.store_sql.specs.States.{Spares};
ghost use Rattle.store_desk.specs.Desks.{KeepsDesk};
ghost use Rattle.store_minutes.specs.Faults.{IsDeskFailure};
ghost use Rattle.store_minutes.specs.Following.{AcceptsNot, IsDue};

use base::Refusal;
use desk_rules::decide;
use desk_types::{Call, Reply};
use sqlite::Alter;
use std::alloc::Global;
use store_desk::Desk;

/// The reply to a call, if it would be accepted and join the desk's history. `None`: it repeats a
/// call, or the rules refuse it. Nothing changes. Takes memory.
///
/// `NoMemory`: memory was refused. `Store`: the store failed. `Reopen`: it failed before.
pub(crate) fn reply_due<S: Alter + Drop>(
    alloc: Global,
    desk: &mut Desk<S>,
    call: &Call,
) -> Result<Option<Reply>, Refusal>
    ensures due { HasCleanDisk (state S.Store desk.new.conn) → IfOk result (λ given.
        IfSome given (IsDue S.Store desk.old call.now)) }
    ensures none { HasCleanDisk (state S.Store desk.new.conn) → IfOk result (λ given.
        IfNone given (AcceptsNot S.Store desk.old call.now)) }
    ensures same { HasCleanDisk (state S.Store desk.new.conn) → IfOk result (λ _.
        KeepsDesk S.Store desk.old desk.new) }
    ensures spares { Spares S.Store desk.old.conn desk.new.conn }
    ensures named { IfErr result IsDeskFailure }
{
    let view = match desk.view(&call.caller, &call.key, &call.command) {
        Ok(view) => view,
        Err(refusal) => return Err(refusal),
    };
    match decide(alloc, &view, &call.caller, &call.key, &call.command) {
        Ok(changes) => {
            if changes.writes.is_empty() {
                return Ok(None);
            }
            Ok(Some(changes.reply))
        }
        Err(refusal) => {
            if refusal == Refusal::NoMemory {
                return Err(Refusal::NoMemory);
            }
            Ok(None)
        }
    }
}
