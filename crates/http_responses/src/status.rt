//! Statuses of responses.
ghost use Rattle.std.specs.Prelude.{◌≡◌};
ghost use Rattle.http_responses.specs.Responses as spec;

use http::StatusCode;
use http_requests::Methods;

/// The statuses of the desk's responses (RFC 9110, section 15).
#[derive(Clone, Copy, Debug, PartialEq, Eq)]
pub enum Status {
    /// 200, for accepted commands, repeats and reads.
    Ok,
    /// 400
    BadRequest,
    /// 401
    Unauthorized,
    /// 403
    Forbidden,
    /// 404
    NotFound,
    /// 405, with the methods that the path has.
    MethodNotAllowed(Methods),
    /// 409
    Conflict,
    /// 411
    LengthRequired,
    /// 412
    PreconditionFailed,
    /// 413
    PayloadTooLarge,
    /// 422
    UnprocessableEntity,
    /// 501
    NotImplemented,
    /// 503
    ServiceUnavailable,
}

impl Status {
    /// Its code, which knows its digits and its phrase.
    pub fn code(self) -> StatusCode
        ensures { result ≡ spec.code_of self }
    {
        match self {
            Status::Ok => StatusCode::OK,
            Status::BadRequest => StatusCode::BAD_REQUEST,
            Status::Unauthorized => StatusCode::UNAUTHORIZED,
            Status::Forbidden => StatusCode::FORBIDDEN,
            Status::NotFound => StatusCode::NOT_FOUND,
            Status::MethodNotAllowed(_) => StatusCode::METHOD_NOT_ALLOWED,
            Status::Conflict => StatusCode::CONFLICT,
            Status::LengthRequired => StatusCode::LENGTH_REQUIRED,
            Status::PreconditionFailed => StatusCode::PRECONDITION_FAILED,
            Status::PayloadTooLarge => StatusCode::PAYLOAD_TOO_LARGE,
            Status::UnprocessableEntity => StatusCode::UNPROCESSABLE_ENTITY,
            Status::NotImplemented => StatusCode::NOT_IMPLEMENTED,
            Status::ServiceUnavailable => StatusCode::SERVICE_UNAVAILABLE,
        }
    }
}
