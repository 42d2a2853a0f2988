//! Verdicts in JSON.
ghost use Rattle.std.specs.Prelude.{◌≡◌, IfOk, option_map};
ghost use Rattle.serde_json.specs.View.{view};
ghost use Rattle.serde_json.specs.Written.{compact_text};
ghost use Rattle.http_responses.specs.json.Verdicts as spec;

use desk_history::{Below, Verdict};
use desk_types::Facts;
use sbat::{Component, Generation};
use serde_json::{Value, json};
use std::alloc::{AllocError, Global};

/// A verdict of one word.
pub(crate) fn one_word(alloc: Global, word: &str) -> Result<Value, AllocError>
    ensures { IfOk result (λ v. view v ≡ spec.said word.now) }
{
    json!(in alloc; {"verdict": word})
}

/// A component below the level, and the generation that the level requires of it.
pub(crate) fn below(
    alloc: Global,
    level: Generation,
    component: &Component,
) -> Result<Value, AllocError>
    ensures { IfOk result (λ v. view v ≡ spec.below_data level component.now) }
{
    let name = component.name.as_str();
    let generation = component.generation.value();
    let level = level.value();
    json!(in alloc; {
        "component": name,
        "generation": generation,
        "level": level,
        "verdict": "sbat",
    })
}

/// A verdict on an image of these components, or `None` where it names a place without a component.
fn value_of(
    alloc: Global,
    verdict: Verdict,
    components: &[Component],
) -> Result<Option<Value>, AllocError>
    ensures { IfOk result
        (λ value. option_map view value ≡ spec.verdict_data components.now verdict) }
{
    let value = match verdict {
        Verdict::DbxDigest => one_word(alloc, "dbx-digest")?,
        Verdict::DbxCertificate => one_word(alloc, "dbx-certificate")?,
        Verdict::NotListed => one_word(alloc, "not-listed")?,
        Verdict::Sbat(Below { place, needs }) => {
            let Some(component) = components.get(place) else {
                return Ok(None);
            };
            below(alloc, needs, component)?
        }
        Verdict::Allowed => one_word(alloc, "allowed")?,
    };
    Ok(Some(value))
}

/// A verdict on the image of these facts as a JSON object, or `None` where it names a place without
/// a component, which no verdict on this image does. Takes memory.
#[tactic(auto, using(crate::proofs::FloatLemmas::verdict_has_no_float))]
pub fn verdict_json(
    alloc: Global,
    verdict: Verdict,
    facts: &Facts,
) -> Result<Option<Vec<u8>>, AllocError>
    ensures { IfOk result (λ text. option_map (λ t. t.items) text
        ≡ option_map compact_text (spec.verdict_data facts.now.components verdict)) }
{
    match value_of(alloc, verdict, facts.components.as_slice())? {
        Some(value) => Ok(Some(value.to_vec(alloc)?)),
        None => Ok(None),
    }
}
