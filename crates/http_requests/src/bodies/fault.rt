//! Reasons why a JSON body isn't read.
ghost use Rattle.std.specs.Prelude.{◌≡◌};
ghost use Rattle.http_requests.specs.bodies.Bodies.{refusal_of};

use base::Refusal;

/// Why a body wasn't read.
#[derive(Clone, Copy, Debug, PartialEq, Eq)]
pub enum BodyFault {
    /// The bytes aren't the required JSON object.
    BadBody,
    /// Memory was refused.
    NoMemory,
}

impl BodyFault {
    /// Its row in the table of refusals.
    pub fn refusal(self) -> Refusal
        ensures { result ≡ refusal_of self }
    {
        match self {
            BodyFault::BadBody => Refusal::BadBody,
            BodyFault::NoMemory => Refusal::NoMemory,
        }
    }
}
