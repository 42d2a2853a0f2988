//! Reasons why a read fails.
ghost use Rattle.std.specs.Prelude.{◌≡◌};
ghost use Rattle.store_reads.specs.Faults.{of_store, refusal_of};
ghost use Rattle.store_sql.specs.Faults.{fault_of};

use base::Refusal;
use sqlite::Error;
use store_sql::StoreFault;
use thiserror::Error as ErrorText;

/// Why rows weren't read.
#[derive(Clone, Copy, Debug, PartialEq, Eq, ErrorText)]
pub enum ReadFault {
    /// A row isn't one that the desk writes: a column has another kind or isn't in its form, or a
    /// key is repeated.
    #[error("a row isn't the desk's")]
    Row,
    /// Memory was refused, to the desk or to the store.
    #[error("memory was refused")]
    NoMemory,
    /// The store failed.
    #[error("the database failed")]
    Store,
}

impl From<Error> for ReadFault {
    ghost from_gives = { λ error fault. fault ≡ of_store (fault_of error) };

    fn from(error: Error) -> ReadFault {
        match StoreFault::from(error) {
            StoreFault::NoMemory => ReadFault::NoMemory,
            StoreFault::Store => ReadFault::Store,
        }
    }
}

impl ReadFault {
    /// Its row in the table of refusals: `NoMemory`, or `Store` for the two others.
    pub fn refusal(self) -> Refusal
        ensures { result ≡ refusal_of self }
    {
        match self {
            ReadFault::Row => Refusal::Store,
            ReadFault::NoMemory => Refusal::NoMemory,
            ReadFault::Store => Refusal::Store,
        }
    }
}
