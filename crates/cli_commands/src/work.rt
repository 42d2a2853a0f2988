//! Subcommands on an open desk, over any store.
ghost use Rattle.std.specs.Prelude.{◌≡◌, ◌≢◌, Err, IfErr, IfOk, IsErrOf, OnErr, OnOk, true};
ghost use Rattle.std.specs.Io.KnownBytes.{Appends};
ghost use Rattle.sqlite.specs.Held.{state};
ghost use Rattle.sqlite.specs.State.{HasCleanDisk};
ghost use Rattle.base.specs.declared.refusal.Refusal.TheVariants as refusals;
ghost use Rattle.desk_exports.specs.Exports.{exported};
ghost use Rattle.desk_history.specs.Verdicts as verdicts;
ghost use Rattle.desk_history.specs.declared.finding.Verdict.{Verdict};
ghost use Rattle.cli_output.specs.Faults.{IsRow, row_of};
ghost use Rattle.cli_output.specs.VerdictLines.{verdict_line};
ghost use Rattle.desk_history.specs.Called.{called};
ghost use Rattle.store_sql.specs.States.{Spares};
ghost use Rattle.store_desk.specs.Desks.{CommitsOnlyAccepted, ForEachShown, KeepsDesk};
ghost use Rattle.store_desk.specs.Desks.{MayStop, Refuses, Replies};
ghost use Rattle.store_desk.specs.Exports.{SparesDesk, Writes, WritesBeginning};
ghost use Rattle.desk_types.specs.declared.reply.Reply.{Reply};
ghost use Rattle.cli_commands.specs.Faults.{IsAddingRefusal, IsWritingRefusal};
ghost use Rattle.cli_commands.specs.Works.{MayHaveAnswered, answer_line, outcome_of, reply_line};

use crate::saying::{say_reply, say_verdict};
use cli_output::{Buffered, Fault, WorkOutcome};
use desk_exports::Export;
use desk_types::{Caller, Command, Facts, Key, Person};
use sqlite::Alter;
use std::alloc::Global;
use store_desk::Desk;

/// Adds the person by a call of the console, and writes the reply's text and LF. After `Write` the
/// writer holds a prefix of this line; after any other fault it is unchanged. After `Write`,
/// `NoMemory` and `Store` the person may have been added; any other fault refuses the call.
pub fn add<S: Alter + Drop, W: Buffered>(
    alloc: Global,
    desk: &mut Desk<S>,
    key: &Key,
    person: Person,
    writer: &mut W,
) -> Result<WorkOutcome, Fault>
    ensures told { HasCleanDisk (state S.Store desk.new.conn) → OnOk result ((reply : Reply)
        × Replies S.Store desk.old desk.new
        (called Caller.Console key.now (Command.AddPerson person)) reply
        × Appends (W.contents writer.old) (W.contents writer.new) (reply_line reply)) }
    ensures done { IfOk result (λ outcome. outcome ≡ WorkOutcome.Done) }
    ensures flushed { OnOk result (W.flushed writer.new) }

    ensures beginning { HasCleanDisk (state S.Store desk.new.conn) → OnErr result
        (ForEachShown S.Store desk.old
        (WritesBeginning (W.contents writer.old) (W.contents writer.new)
        (answer_line (called Caller.Console key.now (Command.AddPerson person))))) }
    ensures refused { HasCleanDisk (state S.Store desk.new.conn) → IfErr result (λ fault.
        fault ≢ row_of refusals.NoMemory → fault ≢ row_of refusals.Write
        → Refuses S.Store desk.old desk.new
        (called Caller.Console key.now (Command.AddPerson person)) fault.refusal) }
    ensures unwritten { IfErr result (λ fault. fault ≢ row_of refusals.Write
        → writer.new ≡ writer.old) }
    ensures poisons { IsErrOf result (row_of refusals.Store) → desk.new.needs_reopening ≡ true }
    ensures closed { desk.old.needs_reopening ≡ true → (result ≡ Err (row_of refusals.Reopen))
        × (desk.new ≡ desk.old) × (writer.new ≡ writer.old) }
    ensures named { IfErr result (IsRow IsAddingRefusal) }

    ensures same { HasCleanDisk (state S.Store desk.new.conn)
        → result ≢ Err (row_of refusals.Store) → MayHaveAnswered S.Store desk.old desk.new
        (called Caller.Console key.now (Command.AddPerson person)) }
    ensures stopped { MayStop S.Store desk.old desk.new
        (called Caller.Console key.now (Command.AddPerson person)) }
    ensures spares { CommitsOnlyAccepted S.Store desk.old desk.new
        (called Caller.Console key.now (Command.AddPerson person)) }
    ensures uncommitted { IfErr result (λ fault. fault ≢ row_of refusals.NoMemory
        → fault ≢ row_of refusals.Store → fault ≢ row_of refusals.Write
        → Spares S.Store desk.old.conn desk.new.conn) }
    ensures clean { HasCleanDisk (state S.Store desk.new.conn)
        → HasCleanDisk (state S.Store desk.old.conn) }
{
    let reply = match desk.apply(&Caller::Console, key, &Command::AddPerson(person)) {
        Ok(reply) => reply,
        Err(refused) => return Err(Fault::from(refused)),
    };
    match say_reply(alloc, &reply, writer) {
        Ok(()) => Ok(WorkOutcome::Done),
        Err(fault) => Err(fault),
    }
}

/// Writes the line of the desk's verdict on the image of these facts. After `Write` the writer
/// holds a prefix of the line; after any other fault it is unchanged. The desk doesn't change.
pub fn judge<S: Alter + Drop, W: Buffered>(
    desk: &mut Desk<S>,
    found: &Facts,
    writer: &mut W,
) -> Result<WorkOutcome, Fault>
    ensures told { IfOk result (λ outcome. (said : Verdict) × (outcome ≡ outcome_of said)
        × Appends (W.contents writer.old) (W.contents writer.new) (verdict_line said found.now)
        × (HasCleanDisk (state S.Store desk.new.conn) → ForEachShown S.Store desk.old
        (λ owner cs. said ≡ verdicts.verdict cs found.now))) }
    ensures flushed { OnOk result (W.flushed writer.new) }

    ensures beginning { HasCleanDisk (state S.Store desk.new.conn) → OnErr result
        (ForEachShown S.Store desk.old
        (WritesBeginning (W.contents writer.old) (W.contents writer.new)
        (λ owner cs. verdict_line (verdicts.verdict cs found.now) found.now))) }
    ensures unwritten { IfErr result (λ fault. fault ≢ row_of refusals.Write
        → writer.new ≡ writer.old) }
    ensures poisons { IsErrOf result (row_of refusals.Store) → desk.new.needs_reopening ≡ true }
    ensures closed { desk.old.needs_reopening ≡ true → (result ≡ Err (row_of refusals.Reopen))
        × (desk.new ≡ desk.old) × (writer.new ≡ writer.old) }
    ensures named { IfErr result (IsRow IsWritingRefusal) }

    ensures same { HasCleanDisk (state S.Store desk.new.conn)
        → result ≢ Err (row_of refusals.Store) → KeepsDesk S.Store desk.old desk.new }
    ensures spares { Spares S.Store desk.old.conn desk.new.conn }
    ensures clean { HasCleanDisk (state S.Store desk.new.conn)
        → HasCleanDisk (state S.Store desk.old.conn) }
{
    let said = match desk.verdict(found) {
        Ok(said) => said,
        Err(refusal) => return Err(Fault::from(refusal)),
    };
    say_verdict(&said, found, writer)
}

/// Writes an export of the desk, and flushes the writer. After a fault the writer holds a prefix of
/// the export, which may be empty. The desk doesn't change.
pub fn write_export<S: Alter + Drop, W: Buffered>(
    desk: &mut Desk<S>,
    what: Export,
    writer: &mut W,
) -> Result<WorkOutcome, Fault>
    ensures ok { HasCleanDisk (state S.Store desk.new.conn) → OnOk result
        (ForEachShown S.Store desk.old
        (Writes (W.contents writer.old) (W.contents writer.new) (exported what))) }
    ensures done { IfOk result (λ outcome. outcome ≡ WorkOutcome.Done) }
    ensures flushed { OnOk result (W.flushed writer.new) }

    ensures beginning { HasCleanDisk (state S.Store desk.new.conn) → OnErr result
        (ForEachShown S.Store desk.old
        (WritesBeginning (W.contents writer.old) (W.contents writer.new) (exported what))) }
    ensures poisons { IsErrOf result (row_of refusals.Store) → desk.new.needs_reopening ≡ true }
    ensures closed { desk.old.needs_reopening ≡ true → (result ≡ Err (row_of refusals.Reopen))
        × (desk.new ≡ desk.old) × (writer.new ≡ writer.old) }
    ensures named { IfErr result (IsRow IsWritingRefusal) }

    ensures same { HasCleanDisk (state S.Store desk.new.conn)
        → result ≢ Err (row_of refusals.Store) → KeepsDesk S.Store desk.old desk.new }
    ensures spares { SparesDesk S.Store desk.old desk.new }
    ensures clean { HasCleanDisk (state S.Store desk.new.conn)
        → HasCleanDisk (state S.Store desk.old.conn) }
{
    match desk.export(what, writer) {
        Ok(()) => {}
        Err(refusal) => return Err(Fault::from(refusal)),
    }
    match writer.flush_all() {
        Ok(()) => Ok(WorkOutcome::Done),
        Err(failed) => Err(Fault::from(failed)),
    }
}
