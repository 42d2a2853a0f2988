//! What people are shown of a desk, each reading read from a line and told in words.
use super::line::Line;
use super::telling::put_requests;
use super::*;
use desk_exports::{Reading, Shown};

/// What a verb and the words behind the name ask to read.
fn reading(verb: &str, words: &mut Words) -> Option<Reading> {
    match verb {
        "lists" => Some(Reading::Requests),
        "requests" => Some(Reading::RequestsFrom(words.number()?)),
        "with" => Some(Reading::RequestsWith(words.digest()?)),
        "proposals" => Some(Reading::ProposalsFrom(words.number()?)),
        "waits" => Some(Reading::Waiting),
        "changes" => Some(Reading::Changes),
        _ => None,
    }
}

/// How many requests there are, and the numbers of the first and the last.
fn put_ends(line: &mut Line, requests: &[ShownRequest]) -> Option<()> {
    line.number(requests.len() as u64).ok()?;
    if let Some(first) = requests.first() {
        line.number(first.number.value()).ok()?;
    }
    if let Some(last) = requests.last() {
        line.number(last.number.value()).ok()?;
    }
    Some(())
}

/// The number of each proposal, and who proposed it.
fn put_proposals(line: &mut Line, proposals: &[Proposal]) -> Option<()> {
    for proposal in proposals {
        line.number(proposal.number.value()).ok()?;
        line.put(proposal.officer.as_str()).ok()?;
    }
    Some(())
}

/// The number of each request, and then the proposals.
fn put_waits(line: &mut Line, requests: &[ShownRequest], proposals: &[Proposal]) -> Option<()> {
    for request in requests {
        line.number(request.number.value()).ok()?;
    }
    line.put("and").ok()?;
    put_proposals(line, proposals)
}

/// What is shown; `lists` tells all of each request.
fn put_shown(line: &mut Line, verb: &str, shown: Shown<Vec<ShownRequest>>) -> Option<()> {
    match shown {
        Shown::Requests(requests) => {
            if verb == "lists" {
                put_requests(line, &requests).ok()
            } else {
                put_ends(line, &requests)
            }
        }
        Shown::Proposals(proposals) => put_proposals(line, proposals.as_slice()),
        Shown::Waiting(requests, proposals) => put_waits(line, &requests, proposals.as_slice()),
        Shown::Changes(number) => line.number(number).ok(),
        Shown::Request(_)
        | Shown::Proposal(_)
        | Shown::Impact(_, _)
        | Shown::Export(_, _)
        | Shown::Report(_)
        | Shown::Minutes(_)
        | Shown::People(_)
        | Shown::Me(_) => None,
    }
}

/// What the person is shown by a reading of rows, for which only the name counts.
fn shown<S: Alter + Drop>(
    desk: &mut Desk<S>,
    name: PersonName,
    reading: Reading,
) -> Result<Shown<Vec<ShownRequest>>, Refusal> {
    let person = Person {
        name,
        role: Role::Submitter,
        token: Digest::from([0; 32]),
    };
    desk.read(person, reading)
}

/// Puts what the person who is named is shown by the reading of a verb.
pub(super) fn put_reading<S: Alter + Drop>(
    desk: &mut Desk<S>,
    verb: &str,
    words: &mut Words,
    line: &mut Line,
) -> Option<()> {
    let name = words.name()?;
    let reading = reading(verb, words)?;
    match shown(desk, name, reading) {
        Ok(shown) => put_shown(line, verb, shown),
        Err(refusal) => line.put(refusal.name()).ok(),
    }
}
