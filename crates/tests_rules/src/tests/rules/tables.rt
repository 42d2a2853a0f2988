//! Tables as vectors: all rows of a desk in a view, into which decisions are written.
use super::*;

/// The tables of a new desk.
pub(super) fn new_tables(alloc: Global) -> Result<View, Fail> {
    Ok(View {
        stamp: Stamp::original(),
        sizes: NONE,
        people: Vec::new(alloc),
        calls: Vec::new(alloc),
        requests: Vec::new(alloc),
        votes: Vec::new(alloc),
        proposals: Vec::new(alloc),
        lists: ListView {
            listed: Vec::new(alloc),
            revoked_digests: Vec::new(alloc),
            revoked_certificates: Vec::new(alloc),
            components: Vec::new(alloc),
        },
    })
}

/// Tables without a row.
pub(super) const NONE: Sizes = Sizes {
    people: 0,
    calls: 0,
    requests: 0,
    listed: 0,
    revoked_digests: 0,
    revoked_certificates: 0,
    components: 0,
    proposals: 0,
};

/// How many rows the tables have.
fn sizes(tables: &View) -> Sizes {
    Sizes {
        people: tables.people.len() as u64,
        calls: tables.calls.len() as u64,
        requests: tables.requests.len() as u64,
        listed: tables.lists.listed.len() as u64,
        revoked_digests: tables.lists.revoked_digests.len() as u64,
        revoked_certificates: tables.lists.revoked_certificates.len() as u64,
        components: tables.lists.components.len() as u64,
        proposals: tables.proposals.len() as u64,
    }
}

/// Sets the state of the request.
fn set_state(requests: &mut Vec<RequestRow>, outcome: Outcome) {
    let number = outcome.request.value();
    if let Some(place) = requests.iter().position(|row| number == row.number.value()) {
        requests[place].state = outcome.state;
    }
}

/// Sets the state of the proposal.
fn set_proposal_state(proposals: &mut Vec<ProposalRow>, outcome: ProposalOutcome) {
    let number = outcome.proposal.value();
    if let Some(place) = proposals
        .iter()
        .position(|row| number == row.number.value())
    {
        proposals[place].state = outcome.state;
    }
}

/// Lists the entry.
fn list(listed: &mut Vec<Listing>, entry: &Entry) -> Result<(), Fail> {
    let kind = entry.kind;
    let digest = entry.digest;
    let row = Listing { kind, digest };
    listed.push(row)?;
    Ok(())
}

/// Revokes the digest.
fn revoke(lists: &mut ListView, listing: Listing) -> Result<(), Fail> {
    let digest = listing.digest;
    match listing.kind {
        ListedKind::Digest => lists.revoked_digests.push(digest)?,
        ListedKind::Certificate => lists.revoked_certificates.push(digest)?,
    }
    Ok(())
}

/// Takes the entry off the list.
fn take_off(listed: &mut Vec<Listing>, listing: Listing) {
    if let Some(place) = listed.iter().position(|row| listing == *row) {
        listed.swap_remove(place);
    }
}

/// Sets the generation of the component's name.
fn set_generation(components: &mut Vec<Component>, component: &Component) {
    for row in components.iter_mut() {
        if row.name.as_str() == component.name.as_str() {
            row.generation = component.generation;
        }
    }
}

/// A copy of the minute.
fn minute(alloc: Global, row: &Minute) -> Result<Minute, Fail> {
    let text = String::from_str(alloc, row.text.as_str())?;
    let reply = row.reply.clone()?;
    let key = row.key.clone()?;
    let caller = row.caller.clone()?;
    Ok(Minute {
        number: row.number,
        caller,
        key,
        text: CommandText::new(text),
        reply,
    })
}

/// A copy of the request.
fn request(row: &RequestRow) -> Result<RequestRow, Fail> {
    Ok(RequestRow {
        number: row.number,
        submitter: row.submitter.clone()?,
        title: row.title.clone()?,
        length: row.length,
        gap: row.gap,
        file: row.file,
        digest: row.digest,
        signing: row.signing,
        state: row.state,
    })
}

/// A copy of the vote.
fn vote(row: &VoteRow) -> Result<VoteRow, Fail> {
    Ok(VoteRow {
        request: row.request,
        reviewer: row.reviewer.clone()?,
        vote: row.vote,
        note: row.note.clone()?,
    })
}

/// A copy of the proposal.
fn proposal(row: &ProposalRow) -> Result<ProposalRow, Fail> {
    Ok(ProposalRow {
        number: row.number,
        officer: row.officer.clone()?,
        kind: row.kind,
        named: row.named.clone()?,
        state: row.state,
    })
}

/// Makes one write in the tables. Certificates and components of requests, and returned files, are
/// never read.
fn write(alloc: Global, tables: &mut View, write: &Write) -> Result<(), Fail> {
    match write {
        Write::Person(person) => tables.people.push(person.clone()?)?,
        Write::Call(row) => tables.calls.push(minute(alloc, row)?)?,
        Write::Request(row) => tables.requests.push(request(row)?)?,
        Write::Vote(row) => tables.votes.push(vote(row)?)?,
        Write::State(outcome) => set_state(&mut tables.requests, *outcome),
        Write::List(entry) => list(&mut tables.lists.listed, entry)?,
        Write::Unlist(listing) => take_off(&mut tables.lists.listed, *listing),
        Write::Revoke(listing) => revoke(&mut tables.lists, *listing)?,
        Write::Component(component) => tables.lists.components.push(component.clone()?)?,
        Write::Generation(component) => set_generation(&mut tables.lists.components, component),
        Write::Stamp(stamp) => tables.stamp = *stamp,
        Write::Propose(row) => tables.proposals.push(proposal(row)?)?,
        Write::ProposalState(outcome) => set_proposal_state(&mut tables.proposals, *outcome),
        Write::RequestCertificate(_) | Write::RequestComponent(_) | Write::Return(_) => {}
    }
    Ok(())
}

/// Makes the writes in the tables.
pub(super) fn write_all(alloc: Global, tables: &mut View, writes: &[Write]) -> Result<(), Fail> {
    for row in writes {
        write(alloc, tables, row)?;
    }
    tables.sizes = sizes(tables);
    Ok(())
}
