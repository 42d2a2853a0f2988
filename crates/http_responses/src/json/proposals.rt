//! Proposals in JSON.
ghost use Rattle.std.specs.Prelude.{◌≡◌, IfOk};
ghost use Rattle.serde_json.specs.Written.{compact_text};
ghost use Rattle.http_responses.specs.json.Proposals as spec;

use crate::json::arrays::{JsonText, array_text};
use crate::json::in_json::InJson;
use desk_types::Proposal;
use serde_json::{Value, json};
use std::alloc::{AllocError, Global};

impl InJson for Proposal {
    ghost as_data = { spec.proposal_data };

    fn value(&self, alloc: Global) -> Result<Value, AllocError> {
        let number = self.number.value();
        let officer = self.officer.as_str();
        let state = self.state.text();
        json!(in alloc; {
            "certificates": self.certificates,
            "components": self.components,
            "digests": self.digests,
            "number": number,
            "officer": officer,
            "state": state,
        })
    }
}

impl JsonText for Proposal {
    ghost as_data = { spec.proposal_data };

    #[tactic(auto, using(crate::proofs::FloatLemmas::proposal_has_no_float))]
    fn json_text(&self, alloc: Global) -> Result<Vec<u8>, AllocError> {
        self.value(alloc)?.to_vec(alloc)
    }
}

/// Proposals as a JSON array, in their order. Takes memory for the text, and for the tree of one
/// proposal at a time.
pub fn proposals_json(alloc: Global, proposals: &[Proposal]) -> Result<Vec<u8>, AllocError>
    ensures { IfOk result (λ text. text.items ≡ compact_text (spec.proposals_data proposals.now)) }
{
    array_text(alloc, proposals)
}
