//! The content of a response.
ghost use Rattle.std.specs.Prelude.{◌≡◌};
ghost use Rattle.http_responses.specs.Responses as spec;

/// The kind of a response's body, for the field `Content-Type` (RFC 9110, section 8.3).
#[derive(Clone, Copy, Debug, PartialEq, Eq)]
pub enum Content {
    /// Replies, requests, proposals, impacts, people, facts, verdicts and refusals.
    Json,
    /// A level, the report, and minutes.
    Text,
    /// Signature lists: dbx and db.
    Bytes,
}

impl Content {
    /// Its media type.
    pub fn text(self) -> &'static str
        ensures { result.now ≡ spec.content_text self }
    {
        match self {
            Content::Json => "application/json",
            Content::Text => "text/plain",
            Content::Bytes => "application/octet-stream",
        }
    }
}
