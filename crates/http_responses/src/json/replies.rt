//! Replies in JSON.
ghost use Rattle.std.specs.Prelude.{◌≡◌, IfOk, option_map};
ghost use Rattle.serde_json.specs.View.{view};
ghost use Rattle.serde_json.specs.Written.{compact_text};
ghost use Rattle.http_responses.specs.json.Replies as spec;

use desk_types::{Confirmation, Counts, Outcome, ProposalNumber, Reply, RequestNumber};
use serde_json::{Value, json};
use std::alloc::{AllocError, Global};

/// A reply of one word.
fn word(alloc: Global, word: &str) -> Result<Value, AllocError>
    ensures { IfOk result (λ v. view v ≡ spec.word_data word.now) }
{
    json!(in alloc; {"reply": word})
}

/// A word, and the request that it is about.
fn request_value(alloc: Global, word: &str, request: RequestNumber) -> Result<Value, AllocError>
    ensures { IfOk result (λ v. view v ≡ spec.numbered_data word.now request) }
{
    let number = request.value();
    json!(in alloc; {"reply": word, "request": number})
}

/// The state of a request after a review.
fn review_value(alloc: Global, outcome: Outcome) -> Result<Value, AllocError>
    ensures { IfOk result (λ v. view v ≡ spec.reviewed_data outcome) }
{
    let number = outcome.request.value();
    let state = outcome.state.text();
    json!(in alloc; {"reply": "reviewed", "request": number, "state": state})
}

/// What an import changed.
fn import_value(alloc: Global, counts: Counts) -> Result<Value, AllocError>
    ensures { IfOk result (λ v. view v ≡ spec.imported_data counts) }
{
    let Counts {
        digests,
        certificates,
        components,
        passed,
    } = counts;
    json!(in alloc; {
        "certificates": certificates,
        "components": components,
        "digests": digests,
        "passed": passed,
        "reply": "imported",
    })
}

/// A word, and the proposal that it is about.
fn of_proposal(alloc: Global, word: &str, proposal: ProposalNumber) -> Result<Value, AllocError>
    ensures { IfOk result (λ v. view v ≡ spec.about_proposal word.now proposal) }
{
    let number = proposal.value();
    json!(in alloc; {"proposal": number, "reply": word})
}

/// What a proposal changed when it was confirmed.
fn confirmation_value(alloc: Global, confirmation: Confirmation) -> Result<Value, AllocError>
    ensures { IfOk result (λ v. view v ≡ spec.confirmed_data confirmation) }
{
    let number = confirmation.proposal.value();
    let Counts {
        digests,
        certificates,
        components,
        passed,
    } = confirmation.counts;
    json!(in alloc; {
        "certificates": certificates,
        "components": components,
        "digests": digests,
        "passed": passed,
        "proposal": number,
        "reply": "confirmed",
    })
}

/// A reply, or `None` where it has no JSON.
fn value_of(alloc: Global, reply: &Reply) -> Result<Option<Value>, AllocError>
    ensures { IfOk result (λ value. option_map view value ≡ spec.reply_data reply.now) }
{
    let value = match reply {
        Reply::Added(_) => return Ok(None),
        Reply::Submitted(request) => request_value(alloc, "submitted", *request)?,
        Reply::Reviewed(outcome) => review_value(alloc, *outcome)?,
        Reply::Withdrawn(request) => request_value(alloc, "withdrawn", *request)?,
        Reply::Returned(request) => request_value(alloc, "returned", *request)?,
        Reply::Listed => word(alloc, "listed")?,
        Reply::Unlisted => word(alloc, "unlisted")?,
        Reply::Revoked => word(alloc, "revoked")?,
        Reply::Raised => word(alloc, "raised")?,
        Reply::Imported(counts) => import_value(alloc, *counts)?,
        Reply::Proposed(proposal) => of_proposal(alloc, "proposed", *proposal)?,
        Reply::Confirmed(confirmation) => confirmation_value(alloc, *confirmation)?,
        Reply::Dropped(proposal) => of_proposal(alloc, "dropped", *proposal)?,
        Reply::Explained(proposal) => of_proposal(alloc, "explained", *proposal)?,
    };
    Ok(Some(value))
}

/// A reply as a JSON object, or `None` for `Added`, which the console alone is answered. Takes
/// memory.
#[tactic(auto, using(crate::proofs::FloatLemmas::reply_has_no_float))]
pub fn reply_json(alloc: Global, reply: &Reply) -> Result<Option<Vec<u8>>, AllocError>
    ensures { IfOk result (λ text. option_map (λ t. t.items) text
        ≡ option_map compact_text (spec.reply_data reply.now)) }
{
    match value_of(alloc, reply)? {
        Some(value) => Ok(Some(value.to_vec(alloc)?)),
        None => Ok(None),
    }
}
