//! One line of minutes, followed by the second rules.
ghost use Rattle.std.specs.Prelude.{◌≡◌, ◌≢◌, IfErr, IfOk, IsErrOf, OnOk, Some, false, true};
ghost use Rattle.sqlite.specs.Held.{state};
ghost use Rattle.sqlite.specs.State.{HasCleanDisk};
ghost use Rattle.desk_types.specs.declared.command.Call.{Call};
ghost use Rattle.desk_types.specs.declared.reply.Reply.{Reply};
ghost use Rattle.desk_minutes.specs.Lines.{IsTold, line_with};
ghost use Rattle.store_minutes.specs.Faults.{IsFollowFault};
ghost use Rattle.store_desk.specs.Desks.{KeepsDesk};
ghost use Rattle.store_minutes.specs.Following.{EndsBefore, EndsNumbered, GoesOnNumbered, GoesOnWith};
ghost use Rattle.store_minutes.specs.Following.{MayStopNumbered, MayStopOnLine};

use crate::applying::reply_due;
use base::Refusal;
use desk_minutes::{MinuteRead, is_same_reply, read_minute};
use desk_types::{Reply, TextFault};
use sqlite::Alter;
use std::alloc::Global;
use store_desk::Desk;

/// Why a line isn't followed.
#[derive(Clone, Copy, Debug, PartialEq, Eq)]
pub enum FollowFault {
    /// It isn't what the rules give.
    Line,
    /// Memory was refused, or the store failed.
    Device(Refusal),
}

/// The call and the reply of a line of minutes, with its line break, under this number. Takes
/// memory for both.
///
/// `Line`: it is the line of no call and no reply in their forms and within their limits.
pub fn read_line(alloc: Global, number: u64, line: &[u8]) -> Result<MinuteRead, FollowFault>
    ensures found { IfOk result (λ read. IsTold read.call read.reply
        × (line.now ≡ line_with number read.call read.reply)) }
    ensures only { IsErrOf result FollowFault.Line → (c : Call) (given : Reply) → IsTold c given
        → line.now ≢ line_with number c given }
    ensures named { IfErr result IsFollowFault }
{
    match read_minute(alloc, number, line) {
        Ok(read) => Ok(read),
        Err(TextFault::Form) => Err(FollowFault::Line),
        Err(TextFault::NoMemory) => Err(FollowFault::Device(Refusal::NoMemory)),
    }
}

/// Whether the rules accept a line's call, with the reply that the line tells.
fn is_due(given: Option<Reply>, told: &Reply) -> bool
    ensures same { result ≡ true → given ≡ Some told.now }
    ensures differ { result ≡ false → given ≢ Some told.now }
{
    match given {
        Some(reply) => is_same_reply(&reply, told),
        None => false,
    }
}

/// Follows a line of minutes, with its line break, as the line of this number: its call is accepted
/// by the second rules and joins the desk's history, and number, caller, key, text and reply of the
/// line are what these rules give, if the number is that of the next call: it isn't compared with
/// the desk's. Takes memory for the call.
///
/// `Line`: it is the line of no call that they accept next, and the desk shows the same history.
/// `Device`: memory was refused (`NoMemory`), or the store failed (`Store`), or had failed before
/// (`Reopen`); a stop leaves the history before the line or the one with its call, and until then
/// nothing is promised of what the desk shows.
pub fn follow<S: Alter + Drop>(
    alloc: Global,
    desk: &mut Desk<S>,
    number: u64,
    line: &[u8],
) -> Result<(), FollowFault>
    ensures ok { HasCleanDisk (state S.Store desk.new.conn)
        → OnOk result (GoesOnWith S.Store desk.old desk.new number line.now) }
    ensures wrong { HasCleanDisk (state S.Store desk.new.conn)
        → IsErrOf result FollowFault.Line → EndsBefore S.Store desk.old number line.now
        × KeepsDesk S.Store desk.old desk.new }
    ensures stopped { MayStopOnLine S.Store desk.old desk.new number line.now }

    // The same whatever the number.
    ensures goes_on { HasCleanDisk (state S.Store desk.new.conn)
        → OnOk result (GoesOnNumbered S.Store desk.old desk.new number line.now) }
    ensures ends { HasCleanDisk (state S.Store desk.new.conn)
        → IsErrOf result FollowFault.Line → EndsNumbered S.Store desk.old number line.now }
    ensures leaves { MayStopNumbered S.Store desk.old desk.new number line.now }

    ensures clean { HasCleanDisk (state S.Store desk.new.conn)
        → HasCleanDisk (state S.Store desk.old.conn) }
    ensures named { IfErr result IsFollowFault }
{
    let read = match read_line(alloc, number, line) {
        Ok(read) => read,
        Err(fault) => return Err(fault),
    };
    let due = match reply_due(alloc, desk, &read.call) {
        Ok(due) => due,
        Err(refusal) => return Err(FollowFault::Device(refusal)),
    };
    if !is_due(due, &read.reply) {
        return Err(FollowFault::Line);
    }
    match desk.answer(&read.call.caller, &read.call.key, &read.call.command) {
        Ok(_) => Ok(()),
        Err(refusal) => Err(FollowFault::Device(refusal)),
    }
}
