//! A refusal in JSON.
ghost use Rattle.std.specs.Prelude.{◌≡◌, IfOk};
ghost use Rattle.serde_json.specs.View.{view};
ghost use Rattle.serde_json.specs.Written.{compact_text};
ghost use Rattle.http_responses.specs.Refusals.{refusal_data, refused_data};

use crate::refused::Refused;
use serde_json::{Value, json};
use std::alloc::{AllocError, Global};

/// A refusal of this name and number, with its place if it has one.
fn refusal_value(
    alloc: Global,
    name: &str,
    number: u8,
    place: Option<u64>,
) -> Result<Value, AllocError>
    ensures { IfOk result (λ v. view v ≡ refusal_data name.now number place) }
{
    match place {
        Some(place) => json!(in alloc; {"at": place, "name": name, "refused": number}),
        None => json!(in alloc; {"name": name, "refused": number}),
    }
}

/// The refusal of a request.
fn refused_value(alloc: Global, refused: Refused) -> Result<Value, AllocError>
    ensures { IfOk result (λ v. view v ≡ refused_data refused) }
{
    let refusal = refused.refusal();
    refusal_value(alloc, refusal.name(), refusal.number(), refused.place())
}

/// The refusal of a request, as a JSON object. Takes memory.
pub fn refused_json(alloc: Global, refused: Refused) -> Result<Vec<u8>, AllocError>
    ensures { IfOk result (λ text. text.items ≡ compact_text (refused_data refused)) }
{
    refused_value(alloc, refused)?.to_vec(alloc)
}
