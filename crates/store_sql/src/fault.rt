//! Reasons why a statement fails.
ghost use Rattle.std.specs.Prelude.{◌≡◌};
ghost use Rattle.store_sql.specs.Faults.{fault_of, refusal_of};

use base::Refusal;
use sqlite::{Error, ErrorCode};
use thiserror::Error as ErrorText;

/// Why a statement, or the store's opening or closing, failed.
#[derive(Clone, Copy, Debug, PartialEq, Eq, ErrorText)]
pub enum StoreFault {
    /// Memory was refused, to the desk or to the store.
    #[error("memory was refused")]
    NoMemory,
    /// The store failed, or SQL's integers can't hold a number.
    #[error("the database failed")]
    Store,
}

impl From<Error> for StoreFault {
    ghost from_gives = { λ error fault. fault ≡ fault_of error };

    fn from(error: Error) -> StoreFault {
        match error {
            Error::SqliteFailure(ErrorCode::OutOfMemory) => StoreFault::NoMemory,
            _ => StoreFault::Store,
        }
    }
}

impl StoreFault {
    /// Its row in the table of refusals.
    pub fn refusal(self) -> Refusal
        ensures { result ≡ refusal_of self }
    {
        match self {
            StoreFault::NoMemory => Refusal::NoMemory,
            StoreFault::Store => Refusal::Store,
        }
    }
}
