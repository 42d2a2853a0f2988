//! Requests in JSON.
ghost use Rattle.std.specs.Prelude.{◌≡◌, IfOk, OnOk};
ghost use Rattle.serde_json.specs.Data.{string};
ghost use Rattle.serde_json.specs.Written.{compact_text};
ghost use Rattle.serde_json.specs.View.{members_view, view};
ghost use Rattle.http_responses.specs.json.Members.{with_state};
ghost use Rattle.http_responses.specs.json.Requests as spec;

use crate::json::arrays::JsonText;
use crate::json::facts::put_facts;
use crate::json::in_json::{InJson, array_of};
use desk_types::{ShownRequest, ShownReturn, ShownVote};
use serde_json::{Map, Value, json, put};
use std::alloc::{AllocError, Global};

impl InJson for ShownVote {
    ghost as_data = { spec.vote_data };

    fn value(&self, alloc: Global) -> Result<Value, AllocError> {
        let note = self.note.as_str();
        let reviewer = self.reviewer.as_str();
        let vote = self.vote.text();
        json!(in alloc; {"note": note, "reviewer": reviewer, "vote": vote})
    }
}

/// A text.
fn text_value(alloc: Global, text: &str) -> Result<Value, AllocError>
    ensures { IfOk result (λ v. view v ≡ string text.now) }
{
    Ok(Value::String(String::from_str(alloc, text)?))
}

/// The SHA-256 of the whole file that was returned, or null.
fn returned_value(alloc: Global, returned: Option<ShownReturn>) -> Result<Value, AllocError>
    ensures { IfOk result (λ v. view v ≡ spec.returned_data returned) }
{
    match returned {
        Some(returned) => returned.file.value(alloc),
        None => Ok(Value::Null),
    }
}

/// Adds what is shown of what became of it.
#[tactic(auto, unfolding(crate::specs::json::Members::with_state))]
fn put_state(
    members: &mut Map<String, Value>,
    alloc: Global,
    request: &ShownRequest,
) -> Result<(), AllocError>
    ensures { OnOk result (members_view members.new.entries
        ≡ with_state request.now (members_view members.old.entries)) }
{
    let number = Value::from(request.number.value());
    put(members, alloc, "number", number)?;
    let returned = returned_value(alloc, request.returned)?;
    put(members, alloc, "returned", returned)?;
    let state = text_value(alloc, request.state.text())?;
    put(members, alloc, "state", state)?;
    let submitter = text_value(alloc, request.submitter.as_str())?;
    put(members, alloc, "submitter", submitter)?;
    let title = text_value(alloc, request.title.as_str())?;
    put(members, alloc, "title", title)?;
    let votes = array_of(alloc, request.votes.as_slice())?;
    put(members, alloc, "votes", votes)
}

impl InJson for ShownRequest {
    ghost as_data = { spec.request_data };

    #[tactic(auto, unfolding(crate::specs::json::Members::with_facts, crate::specs::json::Members::with_state))]
    fn value(&self, alloc: Global) -> Result<Value, AllocError> {
        let mut members = Map::new(alloc);
        put_facts(&mut members, alloc, &self.facts)?;
        put_state(&mut members, alloc, self)?;
        Ok(Value::Object(members))
    }
}

/// A request as a JSON object. Takes memory.
#[tactic(auto, using(crate::proofs::FloatLemmas::request_has_no_float))]
pub fn request_json(alloc: Global, request: &ShownRequest) -> Result<Vec<u8>, AllocError>
    ensures { IfOk result (λ text. text.items ≡ compact_text (spec.request_data request.now)) }
{
    request.value(alloc)?.to_vec(alloc)
}

impl JsonText for ShownRequest {
    ghost as_data = { spec.request_data };

    fn json_text(&self, alloc: Global) -> Result<Vec<u8>, AllocError> {
        request_json(alloc, self)
    }
}
