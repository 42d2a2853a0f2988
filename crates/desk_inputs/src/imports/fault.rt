//! Refusals of an import.
ghost use Rattle.std.specs.Prelude.{◌≡◌};
ghost use Rattle.desk_inputs.specs.imports.Faults.{place_of, refusal_of};

use base::Refusal;
use siglist::ListsFault;
use thiserror::Error;

/// Why an import was refused.
#[derive(Clone, Copy, Debug, PartialEq, Eq, Error)]
pub enum ImportFault {
    /// The bytes aren't a row of signature lists.
    #[error("{0}")]
    Lists(ListsFault),
    /// The number of the first wrong record of a CSV file; the header's is 0.
    #[error("record {0} of the CSV file is wrong")]
    Record(u64),
    /// The number of the first wrong line of a level's text, from 1; for a text without lines, 1.
    #[error("line {0} of the level is wrong")]
    Line(u64),
    /// There are more than 10,000 entries, including those that are skipped.
    #[error("there are more than 10,000 entries")]
    TooLong,
    /// Memory was refused.
    #[error("memory was refused")]
    NoMemory,
}

impl ImportFault {
    /// Its row in the table of refusals.
    pub fn refusal(self) -> Refusal
        ensures { result ≡ refusal_of self }
    {
        match self {
            ImportFault::Lists(fault) => fault.refusal(),
            ImportFault::Record(_) => Refusal::CsvRow,
            ImportFault::Line(_) => Refusal::SbatRow,
            ImportFault::TooLong => Refusal::TooLong,
            ImportFault::NoMemory => Refusal::NoMemory,
        }
    }

    /// The offset of the refused list, or the number of the refused record or line.
    pub fn place(self) -> Option<u64>
        ensures { result ≡ place_of self }
    {
        match self {
            ImportFault::Lists(fault) => Some(fault.place()),
            ImportFault::Record(number) => Some(number),
            ImportFault::Line(number) => Some(number),
            ImportFault::TooLong | ImportFault::NoMemory => None,
        }
    }
}
