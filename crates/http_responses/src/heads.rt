//! The heads of responses.
ghost use Rattle.std.specs.Prelude.{◌≡◌, ◌++◌, IfOk, OnOk, string_bytes};
ghost use Rattle.http_responses.specs.Responses as spec;

use crate::content::Content;
use crate::status::Status;
use http::StatusCode;
use std::alloc::{AllocError, Global};

/// Adds a field's line.
#[tactic(auto, unfolding(crate::specs::Responses::field_line))]
fn push_field(text: &mut String, name: &str, value: &str) -> Result<(), AllocError>
    ensures { OnOk result
        (string_bytes text.new ≡ string_bytes text.old ++ spec.field_line name.now value.now) }
{
    text.push_str(name)?;
    text.push_str(": ")?;
    text.push_str(value)?;
    text.push_str("\r\n")
}

/// Adds the status line.
#[tactic(auto, unfolding(crate::specs::Responses::status_line))]
fn push_status(text: &mut String, code: &str, phrase: &str) -> Result<(), AllocError>
    ensures { OnOk result
        (string_bytes text.new ≡ string_bytes text.old ++ spec.status_line code.now phrase.now) }
{
    text.push_str("HTTP/1.1 ")?;
    text.push_str(code)?;
    text.push_str(" ")?;
    text.push_str(phrase)?;
    text.push_str("\r\n")
}

/// The phrase of a code.
#[tactic(auto, unfolding(crate::specs::Responses::phrase_text))]
fn phrase_of(code: StatusCode) -> &'static str
    ensures { result.now ≡ spec.phrase_text code }
{
    code.canonical_reason().unwrap_or("")
}

/// Adds the line that only this status has, if there is one.
fn push_own(text: &mut String, status: Status) -> Result<(), AllocError>
    ensures { OnOk result
        (string_bytes text.new ≡ string_bytes text.old ++ spec.own_line status) }
{
    match status {
        Status::Unauthorized => push_field(text, "WWW-Authenticate", "Desk"),
        Status::MethodNotAllowed(methods) => push_field(text, "Allow", methods.text()),
        Status::Ok
        | Status::BadRequest
        | Status::Forbidden
        | Status::NotFound
        | Status::Conflict
        | Status::LengthRequired
        | Status::PreconditionFailed
        | Status::PayloadTooLarge
        | Status::UnprocessableEntity
        | Status::NotImplemented
        | Status::ServiceUnavailable => Ok(()),
    }
}

/// The status line, the fields and the empty line.
#[tactic(auto, unfolding(crate::specs::Responses::head_text))]
pub(crate) fn head(
    alloc: Global,
    status: Status,
    content: Content,
    length: usize,
) -> Result<String, AllocError>
    ensures { IfOk result (λ text. string_bytes text ≡ spec.head_text status content length) }
{
    let code = status.code();
    let digits = length.to_string(alloc)?;
    let mut text = String::new(alloc);
    push_status(&mut text, code.as_str(), phrase_of(code))?;
    push_field(&mut text, "Content-Type", content.text())?;
    push_field(&mut text, "Content-Length", digits.as_str())?;
    push_own(&mut text, status)?;
    push_field(&mut text, "Connection", "close")?;
    text.push_str("\r\n")?;
    Ok(text)
}
