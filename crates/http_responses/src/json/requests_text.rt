//! A list of requests in JSON, written while it is read.
ghost use Rattle.std.specs.Prelude.{◌≡◌, ◌++◌, ◌∷◌, [], List, IfOk, MatchResult, map};
ghost use Rattle.serde_json.specs.Written.{compact_text};
ghost use Rattle.desk_types.specs.declared.shown.ShownRequest.{ShownRequest};
ghost use Rattle.http_responses.specs.json.Arrays.{after_commas};
ghost use Rattle.http_responses.specs.json.Requests.{request_data, requests_data};

use crate::json::arrays::{in_brackets, push_item};
use desk_exports::RequestList;
use desk_types::ShownRequest;
use http_server::Log;
use std::alloc::{AllocError, Global};
use std::marker::Model;

/// Requests as the text of a JSON array, each written as it comes, so that none of them is kept. A
/// contract sees the list of them.
#[derive(Drop)]
pub struct RequestsText {
    alloc: Global,
    text: Vec<u8>,
    /// What is in the text. It takes no memory.
    written: Log<ShownRequest, ()>,
}

impl Model for RequestsText {
    ghost Value = { List ShownRequest };

    ghost view = { λ r. map (λ pair. pair.0) r.written.items };

    ghost invariant = { λ r. r.text.items
        ≡ after_commas request_data (map (λ pair. pair.0) r.written.items) };
}

impl RequestsText {
    /// No request. Takes no memory.
    pub fn new(alloc: Global) -> RequestsText
        ensures { result ≡ [] }
    {
        RequestsText {
            alloc,
            text: Vec::new(alloc),
            written: Log::new(),
        }
    }

    /// Adds a request at the end. Takes memory for its text, and for its tree while it is written.
    pub fn push(&mut self, request: &ShownRequest) -> Result<(), AllocError>
        ensures { MatchResult result (λ _. self.new ≡ self.old ++ request.now ∷ [])
            (λ _. self.new ≡ self.old) }
    {
        push_item(self.alloc, &mut self.text, request)?;
        self.written = self.written.and(request, &());
        Ok(())
    }

    /// The text of the array. Takes memory for its brackets.
    #[tactic(auto, using(crate::proofs::ArrayLemmas::bracketed_array))]
    pub fn into_text(self) -> Result<Vec<u8>, AllocError>
        ensures { IfOk result (λ text. text.items ≡ compact_text (requests_data self)) }
    {
        in_brackets(self.text)
    }
}

impl RequestList for RequestsText {
    ghost holds = { λ text shown. text ≡ shown };

    fn new(alloc: Global) -> RequestsText {
        RequestsText::new(alloc)
    }

    fn push(&mut self, shown: ShownRequest) -> Result<(), AllocError> {
        RequestsText::push(self, &shown)
    }
}
