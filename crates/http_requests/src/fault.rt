//! Reasons why a head is refused.
ghost use Rattle.std.specs.Prelude.{◌≡◌};
ghost use Rattle.http_requests.specs.Faults as spec;

use crate::Methods;
use base::Refusal;

/// Why a head is refused before the caller is looked up.
#[derive(Clone, Copy, Debug, PartialEq, Eq)]
pub enum WantedFault {
    /// There is a field Transfer-Encoding.
    NotSupported,
    /// A known field is repeated, Content-Length isn't 1 to 10 digits, or GET announces a body.
    BadField,
    /// The target isn't a path of the table.
    NoRoute,
    /// The path has these methods, and the request's isn't one of them.
    BadMethod(Methods),
    /// POST without Content-Length.
    LengthNeeded,
    /// The body is longer than the route's limit.
    TooLarge,
}

/// Why a request's fields or target don't suit its route.
#[derive(Clone, Copy, Debug, PartialEq, Eq)]
pub enum AskedFault {
    /// Desk-Key, Desk-Title or Desk-Stamp is missing where it is needed, or isn't in its form; or
    /// If-Match isn't one entity tag of a digest, where a command takes a precondition.
    BadField,
    /// The part in the place of `{no}` isn't a request's number.
    NoSuchRequest,
    /// The part in the place of `{no}` isn't a proposal's number.
    NoSuchProposal,
    /// The part in the place of `{no}` isn't a minute's number: `check_head` finds no such path.
    NoRoute,
    /// Memory was refused.
    NoMemory,
}

impl WantedFault {
    /// Its row in the table of refusals.
    pub fn refusal(self) -> Refusal
        ensures { result ≡ spec.wanted_refusal self }
    {
        match self {
            WantedFault::NotSupported => Refusal::NotSupported,
            WantedFault::BadField => Refusal::BadField,
            WantedFault::NoRoute => Refusal::NoRoute,
            WantedFault::BadMethod(_) => Refusal::BadMethod,
            WantedFault::LengthNeeded => Refusal::LengthNeeded,
            WantedFault::TooLarge => Refusal::TooLarge,
        }
    }
}

impl AskedFault {
    /// Its row in the table of refusals.
    pub fn refusal(self) -> Refusal
        ensures { result ≡ spec.asked_refusal self }
    {
        match self {
            AskedFault::BadField => Refusal::BadField,
            AskedFault::NoSuchRequest => Refusal::NoSuchRequest,
            AskedFault::NoSuchProposal => Refusal::NoSuchProposal,
            AskedFault::NoRoute => Refusal::NoRoute,
            AskedFault::NoMemory => Refusal::NoMemory,
        }
    }
}
