//! What waits for a person in JSON.
ghost use Rattle.std.specs.Prelude.{◌≡◌, ◌++◌, IfOk, OnOk, codes};
ghost use Rattle.serde_json.specs.Written.{compact_text};
ghost use Rattle.http_responses.specs.json.Proposals.{proposals_data};
ghost use Rattle.http_responses.specs.json.Waiting as spec;

use crate::json::arrays::{in_front, push_array};
use crate::json::requests_text::RequestsText;
use desk_types::Proposal;
use std::alloc::{AllocError, Global};

/// Adds the text after the requests.
fn push_proposals(
    alloc: Global,
    text: &mut Vec<u8>,
    proposals: &[Proposal],
) -> Result<(), AllocError>
    ensures { OnOk result (text.new.items ≡ ((text.old.items ++ codes ",\"proposals\":")
        ++ compact_text (proposals_data proposals.now)) ++ codes "}") }
{
    text.extend_from_slice(b",\"proposals\":".as_slice())?;
    push_array(alloc, text, proposals)?;
    text.push(b'}')?;
    Ok(())
}

/// What waits as a JSON object, the requests first. Takes memory for the text, and for the tree of
/// one proposal at a time; the text of the requests is moved up, and never held twice.
#[tactic(auto, using(crate::proofs::WaitingLemmas::waiting_text))]
pub fn waiting_json(
    alloc: Global,
    requests: RequestsText,
    proposals: &[Proposal],
) -> Result<Vec<u8>, AllocError>
    ensures { IfOk result (λ text.
        text.items ≡ compact_text (spec.waiting_data requests proposals.now)) }
{
    let mut text = requests.into_text()?;
    push_proposals(alloc, &mut text, proposals)?;
    in_front(b"{\"requests\":".as_slice(), text)
}
