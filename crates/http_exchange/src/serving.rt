//! One request and its response.
ghost use Rattle.std.specs.Prelude.{◌≡◌, ◌≢◌, [], Ok, Some};
ghost use Rattle.std.specs.Prelude.{IfErr, IfOk, IfSome, MatchOption, OnErr};
ghost use Rattle.http_calls.specs.Answers.{Serves, store_failed};
ghost use Rattle.http_calls.specs.Given.{GivesOne};
ghost use Rattle.desk_exports.specs.Desks.{StillShows, ForEachShown};
ghost use Rattle.http_calls.specs.declared.answers.TaskAnswer.{TaskAnswer};
ghost use Rattle.http_exchange.specs.Asked.{HasByte, LeavesBody};
ghost use Rattle.http_exchange.specs.Intakes.{EndIsCaused};
ghost use Rattle.http_exchange.specs.Serving as spec;

use crate::intake::RequestReader;
use crate::reading::read_due;
use crate::responding::send_answer;
use crate::served::{CallOrRefusal, Unread};
use crate::{HttpFault, Served};
use desk_exports::AnswersCalls;
use http_calls::{TaskAnswer, answer};
use http_requests::Routes;
use std::alloc::Global;
use std::io::{Read, Write};

/// The answer to a call, or to a refusal of it.
fn answer_due<D: AnswersCalls>(alloc: Global, desk: &mut D, due: CallOrRefusal) -> TaskAnswer
    ensures served { D.clean desk.new → ForEachShown (D.shows desk.old) (λ owner cs.
        Serves (D.shows desk.new owner) (D.failed desk.new) cs
        (spec.AnswersDue owner cs due) result) }
    ensures gives { D.clean desk.new → ForEachShown (D.shows desk.old) (λ owner cs.
        GivesOne (D.shows desk.new owner) (D.failed desk.new) (D.leaves desk.new owner) cs
        (spec.IsCallDue due) result) }
    ensures before { D.clean desk.new → D.clean desk.old }
    ensures poisons { result ≡ store_failed → D.failed desk.new }
    ensures refused { IfErr due (λ refused.
        (result ≡ TaskAnswer.Refused refused) × (desk.new ≡ desk.old)) }
{
    match due {
        Ok(call) => answer(alloc, desk, call),
        Err(refused) => TaskAnswer::Refused(refused),
    }
}

/// The answer to the request of the input, or `None` if the input has no byte.
fn answer_input<D: AnswersCalls, R: Read>(
    alloc: Global,
    routes: &Routes,
    desk: &mut D,
    reader: &mut R,
    intake: &mut RequestReader,
) -> Result<Option<TaskAnswer>, HttpFault>
    ensures answered { D.clean desk.new → IfOk result (λ found.
        ForEachShown (D.shows desk.old) (λ owner cs. MatchOption found
        (IfSome (R.remaining reader.old) (λ b. b ≡ []) × D.shows desk.new owner cs)
        (Serves (D.shows desk.new owner) (D.failed desk.new) cs
        (spec.AnswersInput owner cs (R.remaining reader.old))))) }
    ensures gives { D.clean desk.new → IfOk result (λ found.
        ForEachShown (D.shows desk.old) (λ owner cs. MatchOption found (D.shows desk.new owner cs)
        (GivesOne (D.shows desk.new owner) (D.failed desk.new) (D.leaves desk.new owner) cs
        (spec.IsAskedIn cs (R.remaining reader.old))))) }
    ensures unread { D.clean desk.new
        → OnErr result (StillShows (D.shows desk.old) (D.shows desk.new)) }
    ensures fault { IfErr result (λ fault. fault ≢ HttpFault.Write) }
    ensures before { D.clean desk.new → D.clean desk.old }
    ensures poisons { result ≡ Ok (Some store_failed) → D.failed desk.new }
    ensures closed { D.failed desk.old → (desk.new ≡ desk.old) × IfOk result (λ found.
        IfSome found (spec.TellsClosed (R.remaining reader.old))) }
    ensures stranger { D.clean desk.new → IfOk result (λ found. IfSome found (λ _.
        LeavesBody (D.shows desk.old) (R.remaining reader.old) (R.remaining reader.new))) }
    ensures some { IfOk result (λ found. IfSome found (λ _. HasByte (R.remaining reader.old))) }
    ensures cause { EndIsCaused intake.old intake.new result }
{
    match read_due(alloc, routes, desk, reader, intake) {
        Ok(Some(due)) => Ok(Some(answer_due(alloc, desk, due))),
        Ok(None) => Ok(None),
        Err(Unread::Read) => Err(HttpFault::Read),
        Err(Unread::NoMemory) => Err(HttpFault::NoMemory),
        Err(Unread::Outage(outage)) => Ok(Some(TaskAnswer::Unavailable(outage))),
    }
}

/// Serves one connection: reads a request, asks the desk, and writes the response, which is built
/// whole before its first byte is written. The body is read only once the caller is known, and
/// nothing after it; clauses say so only where nobody has the token (`stranger`). An input without
/// a byte gets no response. Takes memory.
///
/// If memory for an answer or its text is refused, the response is NoMemory, and an accepted
/// command stays accepted. If the store fails, the response is Store; if it failed before, Reopen.
/// Each has status 503. Whatever the response, a stop afterwards leaves the history that the desk
/// showed, or the one after the call of the request (`gives`).
///
/// Read: a read failed. NoMemory: memory for the head or the body was refused. After these nothing
/// is written, and the desk shows the same history. Write: the writer failed; a prefix of the
/// response was written, and the answer's changes stay. The intake remembers whether a read failed,
/// and whether such memory was refused.
pub fn serve_one<D: AnswersCalls, R: Read, W: Write>(
    alloc: Global,
    routes: &Routes,
    desk: &mut D,
    reader: &mut R,
    intake: &mut RequestReader,
    writer: &mut W,
) -> Result<Served, HttpFault>
    ensures serves { spec.AnswersOne D.shows D.clean D.failed D.leaves
        (R.remaining reader.old) (W.contents writer.old) (W.contents writer.new)
        desk.old desk.new result }
    ensures stranger { D.clean desk.new → spec.LeavesStrangers (D.shows desk.old)
        (R.remaining reader.old) (R.remaining reader.new) result }
    ensures cause { EndIsCaused intake.old intake.new result }
{
    match answer_input(alloc, routes, desk, reader, intake) {
        Ok(Some(answer)) => send_answer(alloc, answer, writer),
        Ok(None) => Ok(Served::Nothing),
        Err(fault) => Err(fault),
    }
}
