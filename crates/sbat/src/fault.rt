//! Reasons why SBAT text is refused.
ghost use Rattle.std.specs.Prelude.{◌≡◌};
ghost use Rattle.sbat.specs.Refusals.{place_of, refusal_of};

use base::Refusal;
use thiserror::Error;

/// Why SBAT text is refused.
#[derive(Clone, Copy, Debug, PartialEq, Eq, Error)]
pub enum SbatFault {
    /// The number of the first wrong line, from 1; for a level without lines, 1.
    #[error("line {0} of the SBAT text is wrong")]
    Row(u64),
    /// There are more than 256 components in an image, or more than 10,000 names in a level.
    #[error("the SBAT text names too many components")]
    TooLong,
    /// Memory was refused.
    #[error("memory was refused")]
    NoMemory,
}

impl SbatFault {
    /// Its row in the table of refusals.
    pub fn refusal(self) -> Refusal
        ensures { result ≡ refusal_of self }
    {
        match self {
            SbatFault::Row(_) => Refusal::SbatRow,
            SbatFault::TooLong => Refusal::TooLong,
            SbatFault::NoMemory => Refusal::NoMemory,
        }
    }

    /// The number of the line that was refused.
    pub fn place(self) -> Option<u64>
        ensures { result ≡ place_of self }
    {
        match self {
            SbatFault::Row(line) => Some(line),
            SbatFault::TooLong | SbatFault::NoMemory => None,
        }
    }
}
