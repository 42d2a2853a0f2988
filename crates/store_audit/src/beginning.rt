//! One line of minutes, followed by the first rules.
ghost use Rattle.std.specs.Prelude.{◌≡◌, IfErr, IfOk, IsErrOf};
ghost use Rattle.sqlite.specs.Held.{state};
ghost use Rattle.sqlite.specs.State.{HasCleanDisk};
ghost use Rattle.desk_minutes.specs.Minuted.{is_of_second};
ghost use Rattle.store_minutes.specs.Faults.{IsFollowFault};
ghost use Rattle.store_first_rules.specs.Desks.{KeepsFirst};
ghost use Rattle.store_audit.specs.Following.{EndsBeforeBoth, GoesOnByFirst, MayStopOnFirst};
ghost use Rattle.store_audit.specs.Following.{TellsSecond};

use desk_types::Reply;
use sqlite::Alter;
use std::alloc::Global;
use store_first_rules::FirstDesk;
use store_minutes::{FollowFault, read_line};

/// What a line is where the first rules hold.
#[derive(Clone, Copy, Debug, PartialEq, Eq)]
pub(crate) enum Step {
    /// That of a call which they accept, and which joined the history.
    Joined,
    /// One with a reply that only the second rules give: they hold from this line on.
    Second,
}

/// Whether only the second rules give the reply.
fn needs_second(reply: &Reply) -> bool
    ensures { result ≡ is_of_second reply.now }
{
    matches!(
        reply,
        Reply::Proposed(_) | Reply::Confirmed(_) | Reply::Dropped(_)
    )
}

/// Follows a line of minutes, with its line break, as the line of this number: its call is accepted
/// by the first rules and joins the desk's history, and number, caller, key, text and reply of the
/// line are what these rules give. A line with a reply that only the second rules give changes
/// nothing. Takes memory for the call.
///
/// `Line`: it is the line of no call that may come next, by either rules, and the desk shows the
/// same history. `Device`: memory was refused (`NoMemory`), or the store failed (`Store`); a stop
/// leaves the history before the line or the one with its call, and until then nothing is promised
/// of what the desk shows.
pub(crate) fn follow_first<S: Alter + Drop>(
    alloc: Global,
    desk: &mut FirstDesk<S>,
    number: u64,
    line: &[u8],
) -> Result<Step, FollowFault>
    ensures joined { HasCleanDisk (state S.Store desk.new.conn) → IfOk result (λ step.
        step ≡ Step.Joined → GoesOnByFirst S.Store desk.old desk.new number line.now) }
    ensures second { IfOk result (λ step. step ≡ Step.Second
        → (desk.new ≡ desk.old) × TellsSecond number line.now) }
    ensures wrong { HasCleanDisk (state S.Store desk.new.conn)
        → IsErrOf result FollowFault.Line → EndsBeforeBoth S.Store desk.old number line.now
        × KeepsFirst S.Store desk.old desk.new }
    ensures stopped { MayStopOnFirst S.Store desk.old desk.new number line.now }
    ensures clean { HasCleanDisk (state S.Store desk.new.conn)
        → HasCleanDisk (state S.Store desk.old.conn) }
    ensures named { IfErr result IsFollowFault }
{
    let read = match read_line(alloc, number, line) {
        Ok(read) => read,
        Err(fault) => return Err(fault),
    };
    if needs_second(&read.reply) {
        return Ok(Step::Second);
    }
    match desk.follow(&read.call, &read.reply) {
        Ok(true) => Ok(Step::Joined),
        Ok(false) => Err(FollowFault::Line),
        Err(refusal) => Err(FollowFault::Device(refusal)),
    }
}
