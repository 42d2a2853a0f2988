//! People in JSON.
ghost use Rattle.std.specs.Prelude.{◌≡◌, IfOk};
ghost use Rattle.serde_json.specs.Written.{compact_text};
ghost use Rattle.http_responses.specs.json.People as spec;

use crate::json::arrays::{JsonText, array_text};
use crate::json::in_json::InJson;
use desk_history::ShownPerson;
use serde_json::{Value, json};
use std::alloc::{AllocError, Global};

impl InJson for ShownPerson {
    ghost as_data = { spec.person_data };

    fn value(&self, alloc: Global) -> Result<Value, AllocError> {
        let name = self.name.as_str();
        let role = self.role.text();
        json!(in alloc; {"name": name, "role": role})
    }
}

impl JsonText for ShownPerson {
    ghost as_data = { spec.person_data };

    #[tactic(auto, using(crate::proofs::FloatLemmas::person_has_no_float))]
    fn json_text(&self, alloc: Global) -> Result<Vec<u8>, AllocError> {
        self.value(alloc)?.to_vec(alloc)
    }
}

/// A person as a JSON object. Takes memory.
pub fn person_json(alloc: Global, person: &ShownPerson) -> Result<Vec<u8>, AllocError>
    ensures { IfOk result (λ text. text.items ≡ compact_text (spec.person_data person.now)) }
{
    person.json_text(alloc)
}

/// People as a JSON array, in their order. Takes memory for the text, and for the tree of one
/// person at a time.
pub fn people_json(alloc: Global, people: &[ShownPerson]) -> Result<Vec<u8>, AllocError>
    ensures { IfOk result (λ text. text.items ≡ compact_text (spec.people_data people.now)) }
{
    array_text(alloc, people)
}
