//! Requests over HTTP one after another, and a question without HTTP, on a desk in a store in memory.
//! Each function makes one call of the desk.
use super::asking::apply;
use super::founding::made;
use super::*;
use desk_exports::{AnswersCalls, Octets, Published, Reading, Shown};
use desk_inputs::token_digest;
use desk_types::{Caller, Command, Key};
use http_calls::{Task, TaskAnswer, TaskAsked, answer};
use http_exchange::{RequestReader, serve_one};
use http_requests::Routes;
use testing::bytes_of;

type Served = Desk<MemStore>;

/// The people who are added before the requests, with tokens.
const PEOPLE: &str = "\
ann submitter ann-token-0000001
rita reviewer rita-token-000002
olga officer olga-token-000005
otto officer otto-token-000006";

/// Requests and the whole responses.
const ROWS: &str =
    r#"GET /level HTTP/1.1|Desk-Token: olga-token-000005|| => HTTP/1.1 200 OK|Content-Type: text/plain|Content-Length: 18|Connection: close||sbat,1,2021030218~
POST /level HTTP/1.1|Desk-Token: olga-token-000005|Desk-Key: k1|Content-Length: 54||{"component":"grub","generation":3,"stamp":2024010100} => HTTP/1.1 200 OK|Content-Type: application/json|Content-Length: 33|Connection: close||{"proposal":1,"reply":"proposed"}
POST /proposals/1/confirm HTTP/1.1|Desk-Token: olga-token-000005|Desk-Key: k2|Content-Length: 0|| => HTTP/1.1 409 Conflict|Content-Type: application/json|Content-Length: 35|Connection: close||{"name":"OwnProposal","refused":38}
POST /proposals/1/confirm HTTP/1.1|Desk-Token: otto-token-000006|Desk-Key: k1|Content-Length: 0|| => HTTP/1.1 200 OK|Content-Type: application/json|Content-Length: 89|Connection: close||{"certificates":0,"components":1,"digests":0,"passed":0,"proposal":1,"reply":"confirmed"}"#;

/// Requests with If-Match, of the tag of what they are about or of another one, and the whole
/// responses.
const CONDITIONS: &str =
    r#"POST /requests HTTP/1.1|Desk-Token: ann-token-0000001|Desk-Key: k1|Desk-Title: Boot loader|Content-Length: 1024||@ => HTTP/1.1 200 OK|Content-Type: application/json|Content-Length: 33|Connection: close||{"reply":"submitted","request":1}
POST /requests/1/review HTTP/1.1|Desk-Token: rita-token-000002|Desk-Key: k1|If-Match: "aaaaaaaaaaaaaaaaaaaaaaaaaaaaaaaaaaaaaaaaaaaaaaaaaaaaaaaaaaaaaaaa"|Content-Length: 24||{"note":"","vote":"yes"} => HTTP/1.1 412 Precondition Failed|Content-Type: application/json|Content-Length: 32|Connection: close||{"name":"Mismatch","refused":49}
POST /requests/1/review HTTP/1.1|Desk-Token: rita-token-000002|Desk-Key: k1|If-Match: "e4c220d8dab039abb3652b6fa6a553ed2263ecd9bc8c21da0d6b8015b6e0d14c"|Content-Length: 24||{"note":"","vote":"yes"} => HTTP/1.1 200 OK|Content-Type: application/json|Content-Length: 47|Connection: close||{"reply":"reviewed","request":1,"state":"open"}
POST /requests/1/review HTTP/1.1|Desk-Token: rita-token-000002|Desk-Key: k1|If-Match: "e4c220d8dab039abb3652b6fa6a553ed2263ecd9bc8c21da0d6b8015b6e0d14c"|Content-Length: 24||{"note":"","vote":"yes"} => HTTP/1.1 200 OK|Content-Type: application/json|Content-Length: 47|Connection: close||{"reply":"reviewed","request":1,"state":"open"}
POST /requests/1/review HTTP/1.1|Desk-Token: rita-token-000002|Desk-Key: k1|If-Match: "aaaaaaaaaaaaaaaaaaaaaaaaaaaaaaaaaaaaaaaaaaaaaaaaaaaaaaaaaaaaaaaa"|Content-Length: 24||{"note":"","vote":"yes"} => HTTP/1.1 412 Precondition Failed|Content-Type: application/json|Content-Length: 32|Connection: close||{"name":"Mismatch","refused":49}
POST /requests/2/review HTTP/1.1|Desk-Token: rita-token-000002|Desk-Key: k2|If-Match: "e4c220d8dab039abb3652b6fa6a553ed2263ecd9bc8c21da0d6b8015b6e0d14c"|Content-Length: 24||{"note":"","vote":"yes"} => HTTP/1.1 404 Not Found|Content-Type: application/json|Content-Length: 37|Connection: close||{"name":"NoSuchRequest","refused":23}
POST /dbx/digests HTTP/1.1|Desk-Token: olga-token-000005|Desk-Key: k1|Content-Length: 77||{"digest":"aaaaaaaaaaaaaaaaaaaaaaaaaaaaaaaaaaaaaaaaaaaaaaaaaaaaaaaaaaaaaaaa"} => HTTP/1.1 200 OK|Content-Type: application/json|Content-Length: 33|Connection: close||{"proposal":1,"reply":"proposed"}
POST /proposals/1/confirm HTTP/1.1|Desk-Token: ann-token-0000001|Desk-Key: k2|If-Match: "bbbbbbbbbbbbbbbbbbbbbbbbbbbbbbbbbbbbbbbbbbbbbbbbbbbbbbbbbbbbbbbb"|Content-Length: 0|| => HTTP/1.1 403 Forbidden|Content-Type: application/json|Content-Length: 35|Connection: close||{"name":"NotYourRole","refused":21}
POST /proposals/1/confirm HTTP/1.1|Desk-Token: olga-token-000005|Desk-Key: k2|If-Match: "4cf5d45f96f84a529203594417d2f4214c9ef2ea2d7094cb7cd6e8a36587b5eb"|Content-Length: 0|| => HTTP/1.1 409 Conflict|Content-Type: application/json|Content-Length: 35|Connection: close||{"name":"OwnProposal","refused":38}
POST /proposals/1/confirm HTTP/1.1|Desk-Token: otto-token-000006|Desk-Key: k1|If-Match: "bbbbbbbbbbbbbbbbbbbbbbbbbbbbbbbbbbbbbbbbbbbbbbbbbbbbbbbbbbbbbbbb"|Content-Length: 0|| => HTTP/1.1 412 Precondition Failed|Content-Type: application/json|Content-Length: 32|Connection: close||{"name":"Mismatch","refused":49}
POST /proposals/1/confirm HTTP/1.1|Desk-Token: otto-token-000006|Desk-Key: k1|If-Match: "4cf5d45f96f84a529203594417d2f4214c9ef2ea2d7094cb7cd6e8a36587b5eb"|Content-Length: 0|| => HTTP/1.1 200 OK|Content-Type: application/json|Content-Length: 89|Connection: close||{"certificates":0,"components":0,"digests":1,"passed":0,"proposal":1,"reply":"confirmed"}
POST /proposals/1/confirm HTTP/1.1|Desk-Token: otto-token-000006|Desk-Key: k1|If-Match: "4cf5d45f96f84a529203594417d2f4214c9ef2ea2d7094cb7cd6e8a36587b5eb"|Content-Length: 0|| => HTTP/1.1 200 OK|Content-Type: application/json|Content-Length: 89|Connection: close||{"certificates":0,"components":0,"digests":1,"passed":0,"proposal":1,"reply":"confirmed"}"#;

/// The person of a line.
fn person(alloc: Global, line: &str) -> Option<Person> {
    let (name, rest) = line.split_once(" ")?;
    let (role, token) = rest.split_once(" ")?;
    let role = Role::parse(role.as_bytes())?;
    let name = PersonName::parse(alloc, name.as_bytes()).ok()?;
    Some(Person {
        name,
        role,
        token: token_digest(token.as_bytes()),
    })
}

/// The call that adds the person of a line, with the name as its key.
fn adding(alloc: Global, line: &str) -> Option<Call> {
    let person = person(alloc, line)?;
    let key = Key::parse(alloc, person.name.as_str().as_bytes()).ok()?;
    Some(Call {
        caller: Caller::Console,
        key,
        command: Command::AddPerson(person),
    })
}

/// Whether the desk accepts a call.
fn accepts<S: Alter + Drop>(desk: &mut Desk<S>, call: &Call) -> bool {
    apply(desk, call).is_ok()
}

/// Adds the person of a line.
fn add<S: Alter + Drop>(alloc: Global, desk: &mut Desk<S>, line: &str) -> Option<()> {
    let call = adding(alloc, line)?;
    if accepts(desk, &call) { Some(()) } else { None }
}

/// The desk, once its people are added.
fn with_people<S: Alter + Drop>(alloc: Global, desk: Desk<S>) -> Option<Desk<S>> {
    let mut desk = desk;
    for line in PEOPLE.lines() {
        add(alloc, &mut desk, line)?;
    }
    Some(desk)
}

/// A desk with its people.
fn founded(alloc: Global) -> Option<Served> {
    let conn = Connection::open_in_memory(alloc).ok()?;
    with_people(alloc, made(alloc, conn)?)
}

/// The texts of the rows on one side of their arrows.
fn sides(alloc: Global, rows: &str, is_request: bool) -> Option<Vec<Octets>> {
    let mut texts = Vec::new(alloc);
    for row in rows.lines() {
        let (request, response) = row.split_once(" => ")?;
        let side = if is_request { request } else { response };
        texts.push(Octets::new(bytes_of(alloc, side).ok()?)).ok()?;
    }
    Some(texts)
}

/// The bytes of texts, one after another.
fn joined(alloc: Global, texts: &[Octets]) -> Result<Vec<u8>, AllocError> {
    let mut all = Vec::new(alloc);
    for text in texts {
        all.extend_from_slice(text.as_slice())?;
    }
    Ok(all)
}

/// Whether a request is served, as a connection of its own.
fn is_served<D: AnswersCalls>(
    alloc: Global,
    routes: &Routes,
    desk: &mut D,
    input: &Octets,
    writer: &mut Vec<u8>,
) -> bool {
    let mut reader = input.as_slice();
    serve_one(
        alloc,
        routes,
        desk,
        &mut reader,
        &mut RequestReader::new(),
        writer,
    )
    .is_ok()
}

/// The responses to the requests, one after another, if each is served.
fn served_each<D: AnswersCalls>(alloc: Global, desk: &mut D, inputs: &[Octets]) -> Option<Vec<u8>> {
    let routes = Routes::new(alloc).ok()?;
    let mut writer = Vec::new(alloc);
    for input in inputs {
        if !is_served(alloc, &routes, desk, input, &mut writer) {
            return None;
        }
    }
    Some(writer)
}

/// The question of this line's person for the level.
fn level_asked(alloc: Global, line: &str) -> Option<TaskAsked> {
    Some(TaskAsked {
        person: person(alloc, line)?,
        tag: None,
        task: Task::Read(Reading::Export(Published::Level)),
    })
}

/// The text of an answer that is a level.
fn level_of(answer: TaskAnswer) -> Option<Octets> {
    match answer {
        TaskAnswer::Shown(Shown::Export(Published::Level, text)) => Some(text),
        _ => None,
    }
}

/// The level, as the answer to a call of this line's person.
fn level<S: Alter + Drop>(alloc: Global, desk: &mut Desk<S>, line: &str) -> Option<Octets> {
    let call = level_asked(alloc, line)?;
    level_of(answer(alloc, desk, call))
}

/// Whether the desk serves each request of the rows with its response.
fn serves<D: AnswersCalls>(alloc: Global, desk: &mut D, rows: &str) -> Option<bool> {
    let inputs = sides(alloc, rows, true)?;
    let wanted = joined(alloc, &sides(alloc, rows, false)?).ok()?;
    let told = served_each(alloc, desk, &inputs)?;
    Some(told.as_slice() == wanted.as_slice())
}

/// Whether the desk has the level after the requests.
fn has_level<S: Alter + Drop>(alloc: Global, desk: &mut Desk<S>) -> Option<bool> {
    let text = level(alloc, desk, "olga officer olga-token-000005")?;
    let wanted = bytes_of(alloc, "sbat,1,2024010100~grub,3~").ok()?;
    Some(text.as_slice() == wanted.as_slice())
}

/// Whether a desk in memory serves the requests, and has the level after them.
fn answers(alloc: Global) -> Option<(bool, bool)> {
    let mut desk: Served = founded(alloc)?;
    let is_served = serves(alloc, &mut desk, ROWS)?;
    let is_level = has_level(alloc, &mut desk)?;
    Some((is_served, is_level))
}

#[test]
fn requests_are_served_one_after_another(rt: HostRuntime) -> Result<(), Fail> {
    let (is_served, is_level) = answers(rt.alloc()).ok_or("a desk")?;
    assert!(rt; is_served, "the responses");
    assert!(rt; is_level, "the level");
    Ok(())
}

/// Whether a desk in memory serves the requests with If-Match.
fn answers_conditions(alloc: Global) -> Option<bool> {
    let mut desk: Served = founded(alloc)?;
    serves(alloc, &mut desk, CONDITIONS)
}

#[test]
fn commands_with_a_tag_are_about_it(rt: HostRuntime) -> Result<(), Fail> {
    let is_served = answers_conditions(rt.alloc()).ok_or("a desk")?;
    assert!(rt; is_served, "the responses");
    Ok(())
}
