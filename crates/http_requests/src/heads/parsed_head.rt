//! A head that was parsed.
ghost use Rattle.std.specs.Prelude.{◌≡◌, ℕ, List};
ghost use Rattle.httparse.specs.Grammar.{ReadsRequest, RequestHead};
ghost use Rattle.http_requests.specs.heads.Fields.{parts_of, shown};
ghost use Rattle.http_requests.specs.heads.Limits.{HasFewFields};
ghost use Rattle.http_requests.specs.heads.Parsed.{IsParsed};

use crate::Head;
use crate::heads::head_parts::parts_at;
use crate::heads::head_spans::HeadSpans;
use std::marker::Model;

/// The bytes of a head, with the spans of its parts.
#[derive(Debug, Drop)]
pub struct ParsedHead {
    bytes: Vec<u8>,
    spans: HeadSpans,
}

impl Model for ParsedHead {
    ghost Value = { List ℕ };

    ghost view = { λ head. head.bytes.items };

    ghost invariant = { λ head. IsParsed head.bytes.items head.spans };
}

impl ParsedHead {
    /// The head of these bytes, with the spans of its parts in them.
    pub(crate) fn new(bytes: Vec<u8>, spans: HeadSpans) -> ParsedHead
        requires { IsParsed bytes.items spans }
        ensures { result ≡ bytes.items }
    {
        ParsedHead { bytes, spans }
    }

    /// Its bytes.
    pub fn as_bytes(&self) -> &[u8]
        ensures { result.now ≡ self.now }
    {
        self.bytes.as_slice()
    }

    /// Its parts (RFC 9112, sections 2 to 5, as `httparse` takes it).
    pub fn parts(&self) -> Head<'_>
        ensures found { (h : RequestHead) (rest : List ℕ) → ReadsRequest self.now h rest
            → shown result ≡ parts_of h }
        ensures only { (h : RequestHead) × (rest : List ℕ)
            × ReadsRequest self.now h rest × HasFewFields h }
    {
        parts_at(self.bytes.as_slice(), &self.spans)
    }
}
