//! Whole responses.
use base::Refusal;
use http_requests::Methods;
use http_responses::{
    Content, Outage, Refused, Status, outage_response, refused_response, response,
};
use std::alloc::Global;
use std::test::Fail;
use testing::bytes_of;

/// Responses, each after the name of the refusal or the outage, or the methods of its path.
const REFUSALS: &str =
    r#"BadHead HTTP/1.1 400 Bad Request|Content-Type: application/json|Content-Length: 31|Connection: close||{"name":"BadHead","refused":50}
UnknownCaller HTTP/1.1 401 Unauthorized|Content-Type: application/json|Content-Length: 37|WWW-Authenticate: Desk|Connection: close||{"name":"UnknownCaller","refused":20}
NotYourRole HTTP/1.1 403 Forbidden|Content-Type: application/json|Content-Length: 35|Connection: close||{"name":"NotYourRole","refused":21}
NoSuchRequest HTTP/1.1 404 Not Found|Content-Type: application/json|Content-Length: 37|Connection: close||{"name":"NoSuchRequest","refused":23}
Get HTTP/1.1 405 Method Not Allowed|Content-Type: application/json|Content-Length: 33|Allow: GET|Connection: close||{"name":"BadMethod","refused":54}
Post HTTP/1.1 405 Method Not Allowed|Content-Type: application/json|Content-Length: 33|Allow: POST|Connection: close||{"name":"BadMethod","refused":54}
GetAndPost HTTP/1.1 405 Method Not Allowed|Content-Type: application/json|Content-Length: 33|Allow: GET, POST|Connection: close||{"name":"BadMethod","refused":54}
KeyReused HTTP/1.1 409 Conflict|Content-Type: application/json|Content-Length: 33|Connection: close||{"name":"KeyReused","refused":22}
NoSuchProposal HTTP/1.1 404 Not Found|Content-Type: application/json|Content-Length: 38|Connection: close||{"name":"NoSuchProposal","refused":37}
OwnProposal HTTP/1.1 409 Conflict|Content-Type: application/json|Content-Length: 35|Connection: close||{"name":"OwnProposal","refused":38}
ProposalClosed HTTP/1.1 409 Conflict|Content-Type: application/json|Content-Length: 38|Connection: close||{"name":"ProposalClosed","refused":39}
LengthNeeded HTTP/1.1 411 Length Required|Content-Type: application/json|Content-Length: 36|Connection: close||{"name":"LengthNeeded","refused":55}
Mismatch HTTP/1.1 412 Precondition Failed|Content-Type: application/json|Content-Length: 32|Connection: close||{"name":"Mismatch","refused":49}
TooLarge HTTP/1.1 413 Payload Too Large|Content-Type: application/json|Content-Length: 32|Connection: close||{"name":"TooLarge","refused":56}
BadBody HTTP/1.1 422 Unprocessable Entity|Content-Type: application/json|Content-Length: 31|Connection: close||{"name":"BadBody","refused":52}
SbatRow HTTP/1.1 422 Unprocessable Entity|Content-Type: application/json|Content-Length: 38|Connection: close||{"at":7,"name":"SbatRow","refused":12}
List HTTP/1.1 422 Unprocessable Entity|Content-Type: application/json|Content-Length: 35|Connection: close||{"at":0,"name":"List","refused":15}
EntrySize HTTP/1.1 422 Unprocessable Entity|Content-Type: application/json|Content-Length: 41|Connection: close||{"at":28,"name":"EntrySize","refused":16}
CsvRow HTTP/1.1 422 Unprocessable Entity|Content-Type: application/json|Content-Length: 56|Connection: close||{"at":18446744073709551615,"name":"CsvRow","refused":19}
NotSupported HTTP/1.1 501 Not Implemented|Content-Type: application/json|Content-Length: 36|Connection: close||{"name":"NotSupported","refused":57}
NoMemory HTTP/1.1 503 Service Unavailable|Content-Type: application/json|Content-Length: 32|Connection: close||{"name":"NoMemory","refused":40}
Store HTTP/1.1 503 Service Unavailable|Content-Type: application/json|Content-Length: 29|Connection: close||{"name":"Store","refused":41}
Reopen HTTP/1.1 503 Service Unavailable|Content-Type: application/json|Content-Length: 30|Connection: close||{"name":"Reopen","refused":42}
NotADesk HTTP/1.1 503 Service Unavailable|Content-Type: application/json|Content-Length: 32|Connection: close||{"name":"NotADesk","refused":43}
"#;

/// The row of this name in the table of refusals.
fn refusal(name: &str) -> Refusal {
    match name {
        "BadHead" => Refusal::BadHead,
        "UnknownCaller" => Refusal::UnknownCaller,
        "NotYourRole" => Refusal::NotYourRole,
        "NoSuchRequest" => Refusal::NoSuchRequest,
        "KeyReused" => Refusal::KeyReused,
        "NoSuchProposal" => Refusal::NoSuchProposal,
        "OwnProposal" => Refusal::OwnProposal,
        "ProposalClosed" => Refusal::ProposalClosed,
        "Mismatch" => Refusal::Mismatch,
        "LengthNeeded" => Refusal::LengthNeeded,
        "TooLarge" => Refusal::TooLarge,
        "BadBody" => Refusal::BadBody,
        _ => Refusal::NotSupported,
    }
}

/// The refusal of this name, or of the path with these methods.
fn refused(name: &str) -> Option<Refused> {
    match name {
        "Get" => Some(Refused::BadMethod(Methods::Get)),
        "Post" => Some(Refused::BadMethod(Methods::Post)),
        "GetAndPost" => Some(Refused::BadMethod(Methods::GetAndPost)),
        "SbatRow" => Some(Refused::SbatRow(7)),
        "List" => Some(Refused::List(0)),
        "EntrySize" => Some(Refused::EntrySize(28)),
        "CsvRow" => Some(Refused::CsvRow(u64::MAX)),
        _ => Refused::of(refusal(name)),
    }
}

/// The outage of this name, if it is one.
fn outage(name: &str) -> Option<Outage> {
    match name {
        "NoMemory" => Some(Outage::NoMemory),
        "Store" => Some(Outage::Store),
        "Reopen" => Some(Outage::Reopen),
        "NotADesk" => Some(Outage::NotADesk),
        _ => None,
    }
}

/// Whether the line's response is that of its first word.
fn is_answered(alloc: Global, line: &str) -> Result<bool, Fail> {
    let (name, text) = line.split_once(' ').ok_or("a name and a response")?;
    let wanted = bytes_of(alloc, text)?;
    if let Some(outage) = outage(name) {
        return Ok(outage_response(outage) == wanted.as_slice());
    }
    let refused = refused(name).ok_or("what is refused")?;
    let bytes = refused_response(alloc, refused)?;
    Ok(bytes.as_slice() == wanted.as_slice())
}

#[test]
fn answers_what_is_refused(rt: HostRuntime) -> Result<(), Fail> {
    for line in REFUSALS.lines() {
        assert!(rt; is_answered(rt.alloc(), line)?, "{line}");
    }
    assert!(rt; Refused::of(Refusal::Write).is_none(), "a write");
    assert!(rt; Refused::of(Refusal::List).is_none(), "a place is told");
    assert!(rt; Refused::of(Refusal::NoMemory).is_none(), "an outage");
    Ok(())
}

/// Whether the response with this content is the text.
fn is_response(alloc: Global, content: Content, body: &[u8], text: &str) -> Result<bool, Fail> {
    let wanted = bytes_of(alloc, text)?;
    let bytes = response(alloc, Status::Ok, content, body.to_vec(alloc)?)?;
    Ok(bytes.as_slice() == wanted.as_slice())
}

/// The response with a level.
const LEVEL: &str =
    "HTTP/1.1 200 OK|Content-Type: text/plain|Content-Length: 18|Connection: close||\
sbat,1,2021030218~";

/// The response with a reply.
const REPLY: &str =
    r#"HTTP/1.1 200 OK|Content-Type: application/json|Content-Length: 33|Connection: close||{"reply":"submitted","request":1}"#;

/// The response with no byte.
const EMPTY: &str =
    "HTTP/1.1 200 OK|Content-Type: application/octet-stream|Content-Length: 0|Connection: close||";

#[test]
fn answers_what_is_accepted(rt: HostRuntime) -> Result<(), Fail> {
    let level = b"sbat,1,2021030218\n".as_slice();
    assert!(rt;
        is_response(rt.alloc(), Content::Text, level, LEVEL)?,
        "a level"
    );
    let reply = br#"{"reply":"submitted","request":1}"#.as_slice();
    assert!(rt;
        is_response(rt.alloc(), Content::Json, reply, REPLY)?,
        "a reply"
    );
    assert!(rt;
        is_response(rt.alloc(), Content::Bytes, b"", EMPTY)?,
        "an empty dbx"
    );
    Ok(())
}
