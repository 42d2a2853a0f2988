//! Responses to answers.
ghost use Rattle.std.specs.Prelude.{◌≡◌, IfOk, MatchResult};
ghost use Rattle.std.specs.Io.KnownBytes.{Appends};
ghost use Rattle.base.specs.Output.{AppendsBeginning};
ghost use Rattle.http_responses.specs.Responses.{response_text};
ghost use Rattle.http_responses.specs.declared.content.Content.TheVariants.{Json};
ghost use Rattle.http_responses.specs.declared.status.Status.TheVariants as status;
ghost use Rattle.http_calls.specs.declared.answers.TaskAnswer.{TaskAnswer};
ghost use Rattle.http_exchange.specs.Responses as spec;
ghost use Rattle.http_exchange.specs.Sending as sending;

use crate::{Answered, HttpFault, Said, Served};
use base::put;
use desk_exports::{Published, Shown};
use http_calls::TaskAnswer;
use http_responses::{
    Content, Outage, RequestsText, Status, changes_json, facts_json, impact_json, outage_response,
    people_json, person_json, proposal_json, proposals_json, refused_response, reply_json,
    request_json, response, verdict_json, waiting_json,
};
use std::alloc::{AllocError, Global};
use std::io::Write;

/// The response of status 200 with this JSON as its body, or with an empty body.
fn json_response(alloc: Global, json: Option<Vec<u8>>) -> Result<Vec<u8>, AllocError>
    ensures { IfOk result (λ bytes.
        bytes.items ≡ response_text status.Ok Json (spec.items_or_none json)) }
{
    match json {
        Some(text) => response(alloc, Status::Ok, Content::Json, text),
        None => response(alloc, Status::Ok, Content::Json, Vec::new(alloc)),
    }
}

/// The content of an export.
fn content_of(what: Published) -> Content
    ensures { result ≡ spec.content_published what }
{
    match what {
        Published::Dbx | Published::Db => Content::Bytes,
        Published::Level => Content::Text,
    }
}

/// The whole response with what a person is shown. Its bytes aren't copied. Takes memory.
fn response_with(alloc: Global, shown: Shown<RequestsText>) -> Result<Vec<u8>, AllocError>
    ensures { IfOk result (λ bytes. bytes.items ≡ spec.response_of (TaskAnswer.Shown shown)) }
{
    match shown {
        Shown::Requests(requests) => json_response(alloc, Some(requests.into_text()?)),
        Shown::Request(request) => json_response(alloc, Some(request_json(alloc, &request)?)),
        Shown::Proposals(proposals) => {
            json_response(alloc, Some(proposals_json(alloc, proposals.as_slice())?))
        }
        Shown::Proposal(row) => json_response(alloc, Some(proposal_json(alloc, &row)?)),
        Shown::Impact(number, impact) => {
            json_response(alloc, Some(impact_json(alloc, number, &impact)?))
        }
        Shown::Waiting(requests, proposals) => {
            json_response(
                alloc,
                Some(waiting_json(alloc, requests, proposals.as_slice())?),
            )
        }
        Shown::Changes(changes) => json_response(alloc, Some(changes_json(alloc, changes)?)),
        Shown::Export(what, bytes) => {
            response(alloc, Status::Ok, content_of(what), bytes.into_vec())
        }
        Shown::Report(text) => response(alloc, Status::Ok, Content::Text, text.into_vec()),
        Shown::Minutes(text) => response(alloc, Status::Ok, Content::Text, text.into_vec()),
        Shown::People(people) => {
            json_response(alloc, Some(people_json(alloc, people.as_slice())?))
        }
        Shown::Me(person) => json_response(alloc, Some(person_json(alloc, &person)?)),
    }
}

/// The whole response to an answer, or the outage to report: that of the answer, or NoMemory if
/// memory for its text is refused. Takes memory.
fn response_to(alloc: Global, answer: TaskAnswer) -> Result<Vec<u8>, Outage>
    ensures { MatchResult result (λ bytes. bytes.items ≡ spec.response_of answer)
        (λ outage. sending.Replaces answer (TaskAnswer.Unavailable outage)) }
{
    match answer {
        TaskAnswer::Reply(reply) => Ok(json_response(alloc, reply_json(alloc, &reply)?)?),
        TaskAnswer::Shown(shown) => Ok(response_with(alloc, shown)?),
        TaskAnswer::Verdict(verdict, facts) => {
            Ok(json_response(alloc, verdict_json(alloc, verdict, &facts)?)?)
        }
        TaskAnswer::Facts(facts) => Ok(json_response(alloc, Some(facts_json(alloc, &facts)?))?),
        TaskAnswer::Refused(refused) => Ok(refused_response(alloc, refused)?),
        TaskAnswer::Unavailable(outage) => Err(outage),
    }
}

/// Writes the bytes of the response that says this.
fn send<W: Write>(bytes: &[u8], says: Answered, writer: &mut W) -> Result<Served, HttpFault>
    ensures { MatchResult result (λ served. (served ≡ Served.Answered says)
        × Appends (W.contents writer.old) (W.contents writer.new) bytes.now)
        (λ fault. (fault ≡ HttpFault.Write)
        × AppendsBeginning (W.contents writer.old) (W.contents writer.new) bytes.now) }
{
    match put(bytes, writer) {
        Ok(()) => Ok(Served::Answered(says)),
        Err(_) => Err(HttpFault::Write),
    }
}

/// Writes the response for an outage.
fn send_outage<W: Write>(outage: Outage, writer: &mut W) -> Result<Served, HttpFault>
    ensures { sending.Sends (W.contents writer.old) (W.contents writer.new)
        (TaskAnswer.Unavailable outage) result }
{
    let says = Answered {
        status: Status::ServiceUnavailable,
        said: Said::Unavailable(outage),
    };
    send(outage_response(outage), says, writer)
}

/// Writes the response to an answer, or NoMemory if memory for its text is refused. It is built
/// whole before its first byte is written.
pub(crate) fn send_answer<W: Write>(
    alloc: Global,
    answer: TaskAnswer,
    writer: &mut W,
) -> Result<Served, HttpFault>
    ensures { (told : TaskAnswer) × sending.Replaces answer told
        × sending.Sends (W.contents writer.old) (W.contents writer.new) told result }
{
    let says = Answered::of(&answer);
    match response_to(alloc, answer) {
        Ok(bytes) => send(&bytes, says, writer),
        Err(outage) => send_outage(outage, writer),
    }
}
