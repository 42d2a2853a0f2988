//! The result of serving a connection.
ghost use Rattle.std.specs.Prelude.{◌≡◌};
ghost use Rattle.http_exchange.specs.Responses as spec;

use http_calls::{TaskAnswer, TaskAsked};
use http_responses::{Outage, Refused, Status};

/// What a response says: its status, and what became of the request.
#[derive(Clone, Copy, Debug, PartialEq, Eq)]
pub struct Answered {
    pub status: Status,
    pub said: Said,
}

/// What became of a request.
#[derive(Clone, Copy, Debug, PartialEq, Eq)]
pub enum Said {
    /// It was done, or answered: status 200.
    Given,
    /// It is refused for this.
    Refused(Refused),
    /// The desk can't answer: status 503.
    Unavailable(Outage),
}

impl Answered {
    /// What the response to an answer says.
    pub(crate) fn of(answer: &TaskAnswer) -> Answered
        ensures { result ≡ spec.answered_of answer.now }
    {
        match answer {
            TaskAnswer::Reply(_)
            | TaskAnswer::Shown(_)
            | TaskAnswer::Verdict(_, _)
            | TaskAnswer::Facts(_) => Answered {
                status: Status::Ok,
                said: Said::Given,
            },
            TaskAnswer::Refused(refused) => Answered {
                status: refused.status(),
                said: Said::Refused(*refused),
            },
            TaskAnswer::Unavailable(outage) => Answered {
                status: Status::ServiceUnavailable,
                said: Said::Unavailable(*outage),
            },
        }
    }
}

/// What was served.
#[derive(Clone, Copy, Debug, PartialEq, Eq)]
pub enum Served {
    /// A response went out.
    Answered(Answered),
    /// The input had no byte, and nothing went out.
    Nothing,
}

/// Why no response went out whole.
#[derive(Clone, Copy, Debug, PartialEq, Eq)]
pub enum HttpFault {
    /// The reader failed or was interrupted. Nothing was written.
    Read,
    /// The writer failed, was interrupted or took nothing. A prefix of the response, which may be
    /// empty, went out.
    Write,
    /// Memory was refused while the head or the body was read. Nothing was written.
    NoMemory,
}

/// Why a request isn't known.
#[derive(Clone, Copy, Debug, PartialEq, Eq)]
pub(crate) enum Unread {
    /// The reader failed or was interrupted.
    Read,
    /// Memory was refused while the head or the body was read.
    NoMemory,
    /// The desk can answer no request, or memory was refused for something else.
    Outage(Outage),
}

/// A request: a call, or the refusal of the first check that fails.
pub(crate) type CallOrRefusal = Result<TaskAsked, Refused>;
