//! Facts of an image in JSON.
ghost use Rattle.std.specs.Prelude.{◌≡◌, IfOk, OnOk};
ghost use Rattle.serde_json.specs.Written.{compact_text};
ghost use Rattle.serde_json.specs.View.{members_view};
ghost use Rattle.http_responses.specs.json.Facts.{facts_data};
ghost use Rattle.http_responses.specs.json.Members.{with_facts};

use crate::json::in_json::{InJson, array_of};
use desk_types::Facts;
use serde_json::{Map, Value, put};
use std::alloc::{AllocError, Global};

/// Adds what is shown of an image.
#[tactic(auto, unfolding(crate::specs::json::Members::with_facts))]
pub(crate) fn put_facts(
    members: &mut Map<String, Value>,
    alloc: Global,
    facts: &Facts,
) -> Result<(), AllocError>
    ensures { OnOk result (members_view members.new.entries
        ≡ with_facts facts.now (members_view members.old.entries)) }
{
    let carried = array_of(alloc, facts.carried.as_slice())?;
    put(members, alloc, "carried", carried)?;
    let components = array_of(alloc, facts.components.as_slice())?;
    put(members, alloc, "components", components)?;
    put(members, alloc, "digest", facts.digest.value(alloc)?)?;
    put(members, alloc, "file", facts.file.value(alloc)?)?;
    let gap = Value::from(facts.extent.gap());
    put(members, alloc, "gap", gap)?;
    let length = Value::from(facts.extent.length());
    put(members, alloc, "length", length)?;
    put(members, alloc, "signing", facts.signing.value(alloc)?)
}

impl InJson for Facts {
    ghost as_data = { facts_data };

    #[tactic(auto, unfolding(crate::specs::json::Members::with_facts))]
    fn value(&self, alloc: Global) -> Result<Value, AllocError> {
        let mut members = Map::new(alloc);
        put_facts(&mut members, alloc, self)?;
        Ok(Value::Object(members))
    }
}

/// Facts of an image as a JSON object. Takes memory.
#[tactic(auto, using(crate::proofs::FloatLemmas::facts_have_no_float))]
pub fn facts_json(alloc: Global, facts: &Facts) -> Result<Vec<u8>, AllocError>
    ensures { IfOk result (λ text. text.items ≡ compact_text (facts_data facts.now)) }
{
    facts.value(alloc)?.to_vec(alloc)
}
