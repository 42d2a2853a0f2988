//! The number of changes in JSON.
ghost use Rattle.std.specs.Prelude.{◌≡◌, IfOk};
ghost use Rattle.serde_json.specs.View.{view};
ghost use Rattle.serde_json.specs.Written.{compact_text};
ghost use Rattle.http_responses.specs.json.Changes as spec;

use serde_json::{Value, json};
use std::alloc::{AllocError, Global};

/// The number of changes.
fn changes_value(alloc: Global, changes: u64) -> Result<Value, AllocError>
    ensures { IfOk result (λ v. view v ≡ spec.changes_data changes) }
{
    json!(in alloc; {"changes": changes})
}

/// The number of changes as a JSON object. Takes memory.
#[tactic(auto, using(crate::proofs::FloatLemmas::changes_have_no_float))]
pub fn changes_json(alloc: Global, changes: u64) -> Result<Vec<u8>, AllocError>
    ensures { IfOk result (λ text. text.items ≡ compact_text (spec.changes_data changes)) }
{
    changes_value(alloc, changes)?.to_vec(alloc)
}
