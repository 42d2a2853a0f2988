//! Reasons why a certificate table is refused.
ghost use Rattle.std.specs.Prelude.{◌≡◌};
ghost use Rattle.authenticode.specs.Faults.{not_der, refusal_of};

use base::{NotDer, Refusal};
use thiserror::Error;

/// Why a certificate table is refused.
#[derive(Clone, Copy, Debug, PartialEq, Eq, Error)]
pub enum CarriedFault {
    /// An entry is missing or isn't whole.
    #[error("an entry of the certificate table isn't whole")]
    Table,
    /// An entry of type 2 has no SignedData, or the certificates in it aren't a row of DER
    /// elements, or one of them has no TBSCertificate.
    #[error("there is no DER element, SignedData or certificate where one is needed")]
    Der,
    /// There are more than 64 different certificates.
    #[error("the image carries more than 64 different certificates")]
    TooLong,
    /// Memory was refused.
    #[error("memory was refused")]
    NoMemory,
}

impl From<NotDer> for CarriedFault {
    ghost from_gives = { λ _ fault. fault ≡ not_der };

    fn from(_: NotDer) -> CarriedFault {
        CarriedFault::Der
    }
}

impl CarriedFault {
    /// Its row in the table of refusals.
    pub fn refusal(self) -> Refusal
        ensures { result ≡ refusal_of self }
    {
        match self {
            CarriedFault::Table => Refusal::Table,
            CarriedFault::Der => Refusal::Der,
            CarriedFault::TooLong => Refusal::TooLong,
            CarriedFault::NoMemory => Refusal::NoMemory,
        }
    }
}
