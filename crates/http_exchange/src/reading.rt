//! The request of a connection, read.
ghost use Rattle.std.specs.Prelude.{◌≡◌, ℕ, List, [], Err, None, IfOk, IfSome};
ghost use Rattle.std.specs.Prelude.{IsErr, MatchOption, MatchResult};
ghost use Rattle.httparse.specs.Grammar.{ReadsRequest, RequestHead};
ghost use Rattle.http_requests.specs.Fields.{bytes_of};
ghost use Rattle.http_requests.specs.CheckedHead as wants;
ghost use Rattle.desk_exports.specs.Desks.{ForEachShown};
ghost use Rattle.desk_history.specs.Calls.{History};
ghost use Rattle.http_exchange.specs.Asked as spec;
ghost use Rattle.http_exchange.specs.Intakes.{IsCaused};
ghost use Rattle.http_exchange.specs.Refused.{refused_by_head};
ghost use Rattle.http_exchange.specs.Unread.{AsksSafely, IsKnownOfClosed, WhenAsked};
ghost use Rattle.http_exchange.specs.declared.intake.RequestReader.{RequestReader as Reading};

use crate::asking::ask;
use crate::intake::RequestReader;
use crate::served::{CallOrRefusal, Unread};
use desk_exports::AnswersCalls;
use desk_types::Person;
use http_calls::caller;
use http_requests::{CheckedHead, HeadRead, ParsedHead, Routes, WantedFault, check_head};
use http_responses::{Outage, Refused};
use std::alloc::Global;
use std::io::Read;

/// The refusal of a head that has this fault.
fn refusal_of_head(fault: WantedFault) -> Refused
    ensures refused { result ≡ refused_by_head fault }
{
    match fault {
        WantedFault::NotSupported => Refused::NotSupported,
        WantedFault::BadField => Refused::BadField,
        WantedFault::NoRoute => Refused::NoRoute,
        WantedFault::BadMethod(methods) => Refused::BadMethod(methods),
        WantedFault::LengthNeeded => Refused::LengthNeeded,
        WantedFault::TooLarge => Refused::TooLarge,
    }
}

/// The person whose token the field gives, if it gives one.
fn person_of<D: AnswersCalls>(desk: &mut D, token: Option<&[u8]>) -> Result<Option<Person>, Unread>
    ensures asked { D.clean desk.new → IfOk result (λ person. ForEachShown (D.shows desk.old)
        (λ _ cs. person ≡ spec.caller_of cs (bytes_of token.entry))) }
    ensures desk { AsksSafely D.shows D.clean D.failed D.leaves desk.old desk.new result }
    ensures closed { D.failed desk.old → (desk.new ≡ desk.old) × MatchResult result
        (λ person. (person ≡ None) × (bytes_of token.entry ≡ None))
        (λ unread. unread ≡ Unread.Outage Outage.Reopen) }
    ensures cause { (intake : Reading) → IsCaused intake intake result }
{
    let Some(token) = token else {
        return Ok(None);
    };
    match caller(desk, token) {
        Ok(person) => Ok(person),
        Err(outage) => Err(Unread::Outage(outage)),
    }
}

/// The call of a head that wants this, or its refusal.
fn ask_as<D: AnswersCalls, R: Read>(
    alloc: Global,
    desk: &mut D,
    wanted: &CheckedHead<'_>,
    reader: &mut R,
    intake: &mut RequestReader,
) -> Result<CallOrRefusal, Unread>
    ensures asked { D.clean desk.new → IfOk result (λ due. IfSome (R.remaining reader.old) (λ rest.
        ForEachShown (D.shows desk.old) (λ _ cs. due ≡ spec.of_caller (wants.shown wanted.now) rest
        (spec.caller_of cs (wants.shown wanted.now).token)))) }
    ensures desk { AsksSafely D.shows D.clean D.failed D.leaves desk.old desk.new result }
    ensures closed { D.failed desk.old → (desk.new ≡ desk.old) × MatchResult result
        (λ due. (due ≡ Err Refused.UnknownCaller) × ((wants.shown wanted.now).token ≡ None))
        (λ unread. unread ≡ Unread.Outage Outage.Reopen) }
    ensures stranger { D.clean desk.new → ForEachShown (D.shows desk.old) (λ _ cs.
        spec.caller_of cs (wants.shown wanted.now).token ≡ None
        → R.remaining reader.new ≡ R.remaining reader.old) }
    ensures cause { IsCaused intake.old intake.new result }
{
    match person_of(desk, wanted.token) {
        Ok(Some(person)) => ask(alloc, person, wanted, reader, intake),
        Ok(None) => Ok(Err(Refused::UnknownCaller)),
        Err(unread) => Err(unread),
    }
}

/// The call of a head and the bytes after it, or its refusal.
fn ask_by_head<D: AnswersCalls, R: Read>(
    alloc: Global,
    routes: &Routes,
    desk: &mut D,
    head: &ParsedHead,
    reader: &mut R,
    intake: &mut RequestReader,
) -> Result<CallOrRefusal, Unread>
    ensures asked { (h : RequestHead) (q : List ℕ) → ReadsRequest head.now h q
        → D.clean desk.new → IfOk result (λ due. IfSome (R.remaining reader.old) (λ rest.
        ForEachShown (D.shows desk.old) (λ _ cs. due ≡ spec.due_of cs h rest))) }
    ensures desk { AsksSafely D.shows D.clean D.failed D.leaves desk.old desk.new result }
    ensures closed { D.failed desk.old → (desk.new ≡ desk.old) × MatchResult result
        (λ due. IsErr due × ((h : RequestHead) (q : List ℕ)
        → ReadsRequest head.now h q → (cs : History) (rest : List ℕ) → due ≡ spec.due_of cs h rest))
        (λ unread. unread ≡ Unread.Outage Outage.Reopen) }
    ensures stranger { (h : RequestHead) (q : List ℕ) → ReadsRequest head.now h q
        → D.clean desk.new → ForEachShown (D.shows desk.old) (λ _ cs. spec.IsOfNobody cs h
        → R.remaining reader.new ≡ R.remaining reader.old) }
    ensures cause { IsCaused intake.old intake.new result }
{
    match check_head(routes, head) {
        Ok(wanted) => ask_as(alloc, desk, &wanted, reader, intake),
        Err(fault) => Ok(Err(refusal_of_head(fault))),
    }
}

/// Reads the request of the input, or returns `None` if the input has no byte. Takes memory.
pub(crate) fn read_due<D: AnswersCalls, R: Read>(
    alloc: Global,
    routes: &Routes,
    desk: &mut D,
    reader: &mut R,
    intake: &mut RequestReader,
) -> Result<Option<CallOrRefusal>, Unread>
    ensures asked { D.clean desk.new → IfOk result (λ found. IfSome (R.remaining reader.old) (λ b.
        ForEachShown (D.shows desk.old) (λ _ cs. MatchOption found (b ≡ []) (spec.Asks cs b)))) }
    ensures desk { AsksSafely D.shows D.clean D.failed D.leaves desk.old desk.new result }
    ensures closed { D.failed desk.old → (desk.new ≡ desk.old)
        × IsKnownOfClosed (R.remaining reader.old) result }
    ensures stranger { D.clean desk.new → WhenAsked result
        (spec.LeavesBody (D.shows desk.old) (R.remaining reader.old) (R.remaining reader.new)) }
    ensures some { WhenAsked result (spec.HasByte (R.remaining reader.old)) }
    ensures cause { IsCaused intake.old intake.new result }
{
    let head = match intake.read_head(alloc, reader) {
        Ok(HeadRead::Head(head)) => head,
        Ok(HeadRead::Nothing) => return Ok(None),
        Ok(HeadRead::NoHead) => return Ok(Some(Err(Refused::BadHead))),
        Err(unread) => return Err(unread),
    };
    let due = ask_by_head(alloc, routes, desk, &head, reader, intake);
    drop(head);
    match due {
        Ok(due) => Ok(Some(due)),
        Err(unread) => Err(unread),
    }
}
