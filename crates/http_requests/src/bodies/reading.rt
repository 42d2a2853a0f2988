//! The bodies of requests.
ghost use Rattle.std.specs.Prelude.{◌≡◌, IfOk, IfErr, Some};
ghost use Rattle.serde_json.specs.View.{view};
ghost use Rattle.http_requests.specs.bodies.Bodies as spec;

use crate::BodyFault;
use crate::bodies::members::{one_member, three_members, two_members};
use crate::bodies::values::{
    component, digest, generation, kind, note, parse, reason, stamp, vote,
};
use base::Digest;
use desk_types::{Ballot, Explanation, Listing, ProposalNumber, Raise, RequestNumber};
use sbat::Component;
use serde_json::Value;
use std::alloc::Global;

/// The review of a request in a value.
fn review_in(alloc: Global, request: RequestNumber, value: &Value) -> Result<Ballot, BodyFault>
    ensures ok { IfOk result (λ ballot. spec.review_in request (view value.now) ≡ Some ballot) }
    ensures err { IfErr result (spec.Refuses (spec.review_in request (view value.now))) }
{
    let Some((said, word)) = two_members(value, ("note", "vote")) else {
        return Err(BodyFault::BadBody);
    };
    let Some(vote) = vote(word) else {
        return Err(BodyFault::BadBody);
    };
    let note = note(alloc, said)?;
    Ok(Ballot {
        request,
        vote,
        note,
    })
}

/// The digest in an object of one.
fn digest_in(value: &Value) -> Result<Digest, BodyFault>
    ensures ok { IfOk result (λ body. spec.digest_object (view value.now) ≡ Some body) }
    ensures err { IfErr result (spec.Refuses (spec.digest_object (view value.now))) }
{
    let Some(text) = one_member(value, "digest") else {
        return Err(BodyFault::BadBody);
    };
    digest(text).ok_or(BodyFault::BadBody)
}

/// The entry, in a value, that is to be taken off the list.
fn unlist_in(value: &Value) -> Result<Listing, BodyFault>
    ensures ok { IfOk result (λ entry. spec.unlist_in (view value.now) ≡ Some entry) }
    ensures err { IfErr result (spec.Refuses (spec.unlist_in (view value.now))) }
{
    let Some((text, word)) = two_members(value, ("digest", "kind")) else {
        return Err(BodyFault::BadBody);
    };
    let (Some(digest), Some(kind)) = (digest(text), kind(word)) else {
        return Err(BodyFault::BadBody);
    };
    Ok(Listing { kind, digest })
}

/// The raise of the level in a value.
fn level_in(alloc: Global, value: &Value) -> Result<Raise, BodyFault>
    ensures ok { IfOk result (λ raise. spec.level_in (view value.now) ≡ Some raise) }
    ensures err { IfErr result (spec.Refuses (spec.level_in (view value.now))) }
{
    let Some((name, least, time)) = three_members(value, ("component", "generation", "stamp"))
    else {
        return Err(BodyFault::BadBody);
    };
    let (Some(generation), Some(stamp)) = (generation(least), stamp(time)) else {
        return Err(BodyFault::BadBody);
    };
    let name = component(alloc, name)?;
    Ok(Raise {
        component: Component { name, generation },
        stamp,
    })
}

/// The explanation of a proposal in a value.
fn explanation_in(
    alloc: Global,
    proposal: ProposalNumber,
    value: &Value,
) -> Result<Explanation, BodyFault>
    ensures ok { IfOk result (λ explanation.
        spec.explanation_in proposal (view value.now) ≡ Some explanation) }
    ensures err { IfErr result (spec.Refuses (spec.explanation_in proposal (view value.now))) }
{
    let Some(text) = one_member(value, "text") else {
        return Err(BodyFault::BadBody);
    };
    let reason = reason(alloc, text)?;
    Ok(Explanation { proposal, reason })
}

/// Reads the body `{"note":TEXT,"vote":"yes" or "no"}` of a review of the request. Takes memory.
///
/// `BadBody`: the bytes aren't this object, or the text isn't a note. `NoMemory`: memory was
/// refused.
pub fn read_review(alloc: Global, request: RequestNumber, body: &[u8]) -> Result<Ballot, BodyFault>
    ensures ok { IfOk result (λ ballot. spec.review_of request body.now ≡ Some ballot) }
    ensures err { IfErr result (spec.Refuses (spec.review_of request body.now)) }
{
    let value = parse(alloc, body)?;
    review_in(alloc, request, &value)
}

/// Reads the body `{"digest":HEX}`, with 64 hexadecimal digits of either case. Takes memory.
///
/// `BadBody`: the bytes aren't this object. `NoMemory`: memory was refused.
pub fn read_digest(alloc: Global, body: &[u8]) -> Result<Digest, BodyFault>
    ensures ok { IfOk result (λ digest. spec.named_digest body.now ≡ Some digest) }
    ensures err { IfErr result (spec.Refuses (spec.named_digest body.now)) }
{
    let value = parse(alloc, body)?;
    digest_in(&value)
}

/// Reads the body `{"digest":HEX,"kind":"digest" or "certificate"}`, with 64 hexadecimal digits of
/// either case. Takes memory.
///
/// `BadBody`: the bytes aren't this object. `NoMemory`: memory was refused.
pub fn read_unlist(alloc: Global, body: &[u8]) -> Result<Listing, BodyFault>
    ensures ok { IfOk result (λ entry. spec.unlist_of body.now ≡ Some entry) }
    ensures err { IfErr result (spec.Refuses (spec.unlist_of body.now)) }
{
    let value = parse(alloc, body)?;
    unlist_in(&value)
}

/// Reads the body `{"component":NAME,"generation":N,"stamp":N}`. Takes memory.
///
/// `BadBody`: the bytes aren't this object, or a value isn't in its form. `NoMemory`: memory was
/// refused.
pub fn read_level(alloc: Global, body: &[u8]) -> Result<Raise, BodyFault>
    ensures ok { IfOk result (λ raise. spec.level_of body.now ≡ Some raise) }
    ensures err { IfErr result (spec.Refuses (spec.level_of body.now)) }
{
    let value = parse(alloc, body)?;
    level_in(alloc, &value)
}

/// Reads the body `{"text":TEXT}` of an explanation of the proposal. Takes memory.
///
/// `BadBody`: the bytes aren't this object, or the text isn't a reason. `NoMemory`: memory was
/// refused.
pub fn read_explanation(
    alloc: Global,
    proposal: ProposalNumber,
    body: &[u8],
) -> Result<Explanation, BodyFault>
    ensures ok { IfOk result (λ explanation.
        spec.explanation_of proposal body.now ≡ Some explanation) }
    ensures err { IfErr result (spec.Refuses (spec.explanation_of proposal body.now)) }
{
    let value = parse(alloc, body)?;
    explanation_in(alloc, proposal, &value)
}
