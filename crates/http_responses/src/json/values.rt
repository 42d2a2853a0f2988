//! Digests and components in JSON.
ghost use Rattle.http_responses.specs.json.Values as spec;

use crate::json::in_json::InJson;
use base::Digest;
use sbat::Component;
use serde_json::{Value, json};
use std::alloc::{AllocError, Global};

impl InJson for Digest {
    ghost as_data = { spec.digest_data };

    fn value(&self, alloc: Global) -> Result<Value, AllocError> {
        Ok(Value::String(hex::encode(alloc, self.as_bytes())?))
    }
}

impl InJson for Component {
    ghost as_data = { spec.component_data };

    fn value(&self, alloc: Global) -> Result<Value, AllocError> {
        let name = self.name.as_str();
        let generation = self.generation.value();
        json!(in alloc; [name, generation])
    }
}
