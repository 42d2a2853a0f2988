//! The parts of a head.
ghost use Rattle.std.specs.Prelude.{◌≡◌, All, IsUtf8, length, map};
ghost use Rattle.std.specs.Str.{str_eq_ignore_ascii_case};
ghost use Rattle.httparse.specs.Grammar.{RequestHead};
ghost use Rattle.httparse.specs.Spans.{IsHeaderWithin, IsRequestAt, IsWithin, header_bytes, span_bytes};
ghost use Rattle.http_requests.specs.heads.Fields.{occurrence, occurrence_of, parts_of, shown, values_named, with_another};
ghost use Rattle.http_requests.specs.heads.Parsed.{IsParsed};

use crate::heads::head_spans::HeadSpans;
use crate::{Given, Head};
use httparse::spans::{HeaderSpan, Span};
use std::str;

/// Whether a field's name is this one, without regard to case (RFC 9110, section 5.1).
fn is_named(found: &[u8], name: &str) -> bool
    ensures { result ≡ str_eq_ignore_ascii_case found.now name.now }
{
    found.eq_ignore_ascii_case(name.as_bytes())
}

/// What is given under a name, with one more field of that name.
fn with_another<'b>(given: Given<'b>, value: &'b [u8]) -> Given<'b>
    ensures { occurrence result ≡ with_another (occurrence given.entry) value.now }
{
    match given {
        Given::Missing => Given::Once(value),
        Given::Once(_) | Given::Repeated => Given::Repeated,
    }
}

/// What the fields at these spans give under a name.
fn value_given<'b>(bytes: &'b [u8], spans: &[HeaderSpan], name: &str) -> Given<'b>
    requires { All (IsHeaderWithin (length bytes.now)) spans.now }
    ensures { occurrence result
        ≡ occurrence_of (values_named name.now (map (header_bytes bytes.now) spans.now)) }
{
    let mut given = Given::Missing;
    for span in spans {
        if is_named(span.name.of(bytes), name) {
            given = with_another(given, span.value.of(bytes));
        }
    }
    given
}

/// The text of these bytes.
fn text_at(bytes: &[u8], span: Span) -> &str
    requires within { IsWithin (length bytes.now) span }
    requires text { IsUtf8 (span_bytes bytes.now span) }
    ensures { result.now ≡ span_bytes bytes.now span }
{
    match str::from_utf8(span.of(bytes)) {
        Ok(text) => text,
        Err(_) => unreachable!(),
    }
}

/// The parts of the head of these bytes, at these spans.
pub(crate) fn parts_at<'b>(bytes: &'b [u8], spans: &HeadSpans) -> Head<'b>
    requires { IsParsed bytes.now spans.now }
    ensures { (h : RequestHead) → IsRequestAt bytes.now spans.now.fields spans.now.request h
        → shown result ≡ parts_of h }
{
    let fields = &spans.fields[..spans.request.headers];
    Head {
        method: spans.request.method.of(bytes),
        target: text_at(bytes, spans.request.path),
        transfer_encoding: value_given(bytes, fields, "Transfer-Encoding"),
        content_length: value_given(bytes, fields, "Content-Length"),
        desk_token: value_given(bytes, fields, "Desk-Token"),
        desk_key: value_given(bytes, fields, "Desk-Key"),
        desk_title: value_given(bytes, fields, "Desk-Title"),
        desk_stamp: value_given(bytes, fields, "Desk-Stamp"),
        if_match: value_given(bytes, fields, "If-Match"),
    }
}
