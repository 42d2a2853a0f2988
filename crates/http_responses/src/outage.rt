//! Reasons why the desk can't answer any request, and their responses.
ghost use Rattle.std.specs.Prelude.{◌≡◌};
ghost use Rattle.http_responses.specs.Outages.{outage_text as text_of};
ghost use Rattle.http_responses.specs.Refusals as spec;
ghost use Rattle.http_responses.specs.Responses.{unanswered_text};
ghost use Rattle.http_responses.specs.declared.outage.Outage.TheVariants.{NoMemory};

use base::Refusal;
use std::alloc::AllocError;

/// Why the desk can't answer any request: the refusals of status 503.
#[derive(Clone, Copy, Debug, PartialEq, Eq)]
pub enum Outage {
    /// Memory was refused.
    NoMemory,
    /// The database failed.
    Store,
    /// The desk failed before, and must be opened again.
    Reopen,
    /// The file holds no desk, or a desk that this program does not open.
    NotADesk,
}

impl From<AllocError> for Outage {
    ghost from_gives = { λ _ outage. outage ≡ NoMemory };

    fn from(_fault: AllocError) -> Outage {
        Outage::NoMemory
    }
}

impl Outage {
    /// Its row in the table of refusals.
    pub fn refusal(self) -> Refusal
        ensures { result ≡ spec.outage_refusal self }
    {
        match self {
            Outage::NoMemory => Refusal::NoMemory,
            Outage::Store => Refusal::Store,
            Outage::Reopen => Refusal::Reopen,
            Outage::NotADesk => Refusal::NotADesk,
        }
    }
}

/// The response of an outage, in full.
#[tactic(auto, unfolding(crate::specs::Outages::outage_text))]
fn outage_text(outage: Outage) -> &'static str
    ensures { result.now ≡ text_of outage }
{
    match outage {
        Outage::NoMemory => {
            "HTTP/1.1 503 Service Unavailable\r\n\
Content-Type: application/json\r\n\
Content-Length: 32\r\n\
Connection: close\r\n\
\r\n\
{\"name\":\"NoMemory\",\"refused\":40}"
        }
        Outage::Store => {
            "HTTP/1.1 503 Service Unavailable\r\n\
Content-Type: application/json\r\n\
Content-Length: 29\r\n\
Connection: close\r\n\
\r\n\
{\"name\":\"Store\",\"refused\":41}"
        }
        Outage::Reopen => {
            "HTTP/1.1 503 Service Unavailable\r\n\
Content-Type: application/json\r\n\
Content-Length: 30\r\n\
Connection: close\r\n\
\r\n\
{\"name\":\"Reopen\",\"refused\":42}"
        }
        Outage::NotADesk => {
            "HTTP/1.1 503 Service Unavailable\r\n\
Content-Type: application/json\r\n\
Content-Length: 32\r\n\
Connection: close\r\n\
\r\n\
{\"name\":\"NotADesk\",\"refused\":43}"
        }
    }
}

/// The whole response when the desk can't answer.
#[tactic(auto, using(crate::proofs::OutageLemmas::outage_text_is))]
pub fn outage_response(outage: Outage) -> &'static [u8]
    ensures { result.now ≡ unanswered_text outage }
{
    outage_text(outage).as_bytes()
}
