//! Whole responses.
ghost use Rattle.std.specs.Prelude.{◌≡◌, IfOk};
ghost use Rattle.http_responses.specs.Responses as spec;

use crate::content::Content;
use crate::heads::head;
use crate::refused::Refused;
use crate::refused_texts::refused_json;
use crate::status::Status;
use std::alloc::{AllocError, Global};

/// A whole response: the status line; the fields `Content-Type`, `Content-Length` in bytes,
/// `WWW-Authenticate` with 401, `Allow` with 405, and `Connection`; an empty line; the body. Takes
/// memory only for the bytes before the body; the body is moved up, and never held twice.
pub fn response(
    alloc: Global,
    status: Status,
    content: Content,
    body: Vec<u8>,
) -> Result<Vec<u8>, AllocError>
    ensures { IfOk result (λ bytes. bytes.items ≡ spec.response_text status content body.items) }
{
    let head = head(alloc, status, content, body.len())?;
    let mut bytes = body;
    bytes.extend_from_slice(head.as_bytes())?;
    bytes.rotate_right(head.len());
    Ok(bytes)
}

/// The whole response to a request that is refused. Takes memory.
pub fn refused_response(alloc: Global, refused: Refused) -> Result<Vec<u8>, AllocError>
    ensures { IfOk result (λ bytes. bytes.items ≡ spec.refused_text refused) }
{
    let body = refused_json(alloc, refused)?;
    response(alloc, refused.status(), Content::Json, body)
}
