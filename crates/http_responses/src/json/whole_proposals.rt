//! A proposal in JSON, with all that it names.
ghost use Rattle.std.specs.Prelude.{◌≡◌, IfOk};
ghost use Rattle.serde_json.specs.View.{view};
ghost use Rattle.serde_json.specs.Written.{compact_text};
ghost use Rattle.http_responses.specs.json.WholeProposals as spec;

use crate::json::in_json::{InJson, array_of};
use desk_exports::proposal_tag;
use desk_history::ProposalRow;
use sbat::Stamp;
use serde_json::{Value, json};
use std::alloc::{AllocError, Global};

/// The stamp of a level, or null.
fn stamp_value(stamp: Option<Stamp>) -> Value
    ensures { view result ≡ spec.stamp_data stamp }
{
    match stamp {
        Some(stamp) => Value::from(stamp.value()),
        None => Value::Null,
    }
}

impl InJson for ProposalRow {
    ghost as_data = { spec.whole_proposal_data };

    fn value(&self, alloc: Global) -> Result<Value, AllocError> {
        let certificates = array_of(alloc, self.named.certificates().as_slice())?;
        let components = array_of(alloc, self.named.components().as_slice())?;
        let digests = array_of(alloc, self.named.digests().as_slice())?;
        let kind = self.kind.text();
        let number = self.number.value();
        let officer = self.officer.as_str();
        let passed = self.named.passed();
        let stamp = stamp_value(self.named.stamp());
        let state = self.state.text();
        let tag = proposal_tag(alloc, &self.named)?.value(alloc)?;
        json!(in alloc; {
            "certificates": certificates,
            "components": components,
            "digests": digests,
            "kind": kind,
            "number": number,
            "officer": officer,
            "passed": passed,
            "stamp": stamp,
            "state": state,
            "tag": tag,
        })
    }
}

/// A proposal as a JSON object, with all that it names. Takes memory.
#[tactic(auto, using(crate::proofs::FloatLemmas::whole_proposal_has_no_float))]
pub fn proposal_json(alloc: Global, proposal: &ProposalRow) -> Result<Vec<u8>, AllocError>
    ensures { IfOk result (λ text.
        text.items ≡ compact_text (spec.whole_proposal_data proposal.now)) }
{
    proposal.value(alloc)?.to_vec(alloc)
}
