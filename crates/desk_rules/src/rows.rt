//! The rows that decisions write.
ghost use Rattle.std.specs.Prelude.{◌≡◌, [], MatchResult};
ghost use Rattle.desk_types.specs.Callers.{caller_name};
ghost use Rattle.desk_history.specs.Requests.{request_of};
ghost use Rattle.desk_history.specs.Tables.{request_row};
ghost use Rattle.desk_rules.specs.DecisionSteps as spec;

use crate::call_ref::CallRef;
use base::{Digest, Refusal};
use desk_history::{
    CommandText, Entry, EntryBody, Minute, ProposalRow, RequestComponentRow, RequestRow, ReturnRow,
    VoteRow,
};
use desk_types::{
    Ballot, Caller, Certificate, Import, ListedKind, ProposalKind, ProposalNumber, ProposalState,
    Reply, RequestNumber, ReturnedFile, State, Submission,
};
use sbat::Component;
use std::alloc::Global;

/// The minute of a call. Takes memory for it.
pub(crate) fn minute(
    number: u64,
    call: &CallRef<'_>,
    text: CommandText,
    reply: &Reply,
) -> Result<Minute, Refusal>
    ensures { MatchResult result (λ row. row ≡ record {
      number = number;
      caller = call.now.caller;
      key = call.now.key;
      text = text;
      reply = reply.now;
    }) (λ refusal. refusal ≡ Refusal.NoMemory) }
{
    Ok(Minute {
        number,
        caller: call.caller.clone()?,
        key: call.key.clone()?,
        text,
        reply: reply.clone()?,
    })
}

/// The row of the request of this number, in the state open. Takes memory for it.
pub(crate) fn open_request(
    alloc: Global,
    number: RequestNumber,
    caller: &Caller,
    submission: &Submission,
) -> Result<RequestRow, Refusal>
    ensures { MatchResult result (λ row. row
        ≡ request_row State.Open (request_of number caller.now submission.now))
        (λ refusal. refusal ≡ Refusal.NoMemory) }
{
    let facts = &submission.facts;
    Ok(RequestRow {
        number,
        submitter: caller.to_person_name(alloc)?,
        title: submission.title.clone()?,
        length: facts.extent.length(),
        gap: facts.extent.gap(),
        file: facts.file,
        digest: facts.digest,
        signing: facts.signing,
        state: State::Open,
    })
}

/// The row of a component of a request's image, with its place among them from 0. Takes memory for
/// it.
pub(crate) fn request_component(
    request: RequestNumber,
    place: u64,
    component: &Component,
) -> Result<RequestComponentRow, Refusal>
    ensures { MatchResult result (λ row. row ≡ record {
      request = request;
      place = place;
      name = component.now.name;
      generation = component.now.generation;
    }) (λ refusal. refusal ≡ Refusal.NoMemory) }
{
    Ok(RequestComponentRow {
        request,
        place,
        name: component.name.clone()?,
        generation: component.generation,
    })
}

/// The row of the caller's vote. Takes memory for it.
pub(crate) fn vote_row(alloc: Global, caller: &Caller, ballot: &Ballot) -> Result<VoteRow, Refusal>
    ensures { MatchResult result (λ row. row ≡ spec.vote_row (caller_name caller.now) ballot.now)
        (λ refusal. refusal ≡ Refusal.NoMemory) }
{
    Ok(VoteRow {
        request: ballot.request,
        reviewer: caller.to_person_name(alloc)?,
        vote: ballot.vote,
        note: ballot.note.clone()?,
    })
}

/// The row of the caller's returned file. Takes memory for it.
pub(crate) fn return_row(
    alloc: Global,
    caller: &Caller,
    returned_file: &ReturnedFile,
) -> Result<ReturnRow, Refusal>
    ensures { MatchResult result
        (λ row. row ≡ spec.returned_file_row (caller_name caller.now) returned_file.now)
        (λ refusal. refusal ≡ Refusal.NoMemory) }
{
    Ok(ReturnRow {
        request: returned_file.request,
        signer: caller.to_person_name(alloc)?,
        length: returned_file.facts.extent.length(),
        file: returned_file.facts.file,
        digest: returned_file.facts.digest,
    })
}

/// The entry of the digest of an image. Takes no memory.
pub(crate) fn digest_entry(alloc: Global, digest: Digest) -> Entry
    ensures { result ≡ record { kind = ListedKind.Digest; digest = digest; body = [] } }
{
    Entry {
        kind: ListedKind::Digest,
        digest,
        body: EntryBody::new(Vec::new(alloc)),
    }
}

/// The entry of the certificate. Takes memory for its bytes.
pub(crate) fn certificate_entry(alloc: Global, certificate: &Certificate) -> Result<Entry, Refusal>
    ensures { MatchResult result (λ entry. entry ≡ record {
      kind = ListedKind.Certificate;
      digest = certificate.now.tbs;
      body = certificate.now.body;
    }) (λ refusal. refusal ≡ Refusal.NoMemory) }
{
    Ok(Entry {
        kind: ListedKind::Certificate,
        digest: certificate.tbs(),
        body: EntryBody::new(Vec::from_slice(alloc, certificate.body())?),
    })
}

/// The row of the caller's proposal of this number, in the state open. Takes memory for it.
pub(crate) fn open_proposal(
    alloc: Global,
    number: ProposalNumber,
    caller: &Caller,
    kind: ProposalKind,
    named: Import,
) -> Result<ProposalRow, Refusal>
    ensures { MatchResult result
        (λ row. row ≡ spec.open_row number (caller_name caller.now) kind named)
        (λ refusal. refusal ≡ Refusal.NoMemory) }
{
    Ok(ProposalRow {
        number,
        officer: caller.to_person_name(alloc)?,
        kind,
        named,
        state: ProposalState::Open,
    })
}
