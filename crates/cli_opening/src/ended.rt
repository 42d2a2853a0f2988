//! The end of a subcommand over a desk's file, with what is left of its files.
ghost use Rattle.std.specs.Prelude.{◌≡◌, Err, None};
ghost use Rattle.cli_output.specs.Endings.{unopened};
ghost use Rattle.cli_output.specs.Faults.{row_of};
ghost use Rattle.cli_opening.specs.Leaving.{ending_of};

use crate::left::Left;
use base::Refusal;
use cli_output::{Ending, Fault, WorkOutcome};
use sqlite_disk::Disk;

/// The end of a subcommand over a desk's file, with what is left of its files.
#[derive(Drop)]
pub struct Ended<D: Disk> {
    /// The outcome of its work, or the fault that stopped it.
    pub work: Result<WorkOutcome, Fault>,
    /// The fault of closing the desk afterwards.
    pub closing: Option<Fault>,
    /// What is left of the desk's files.
    pub left: Left<D>,
}

impl<D: Disk + Drop> Ended<D> {
    /// The end of a subcommand that has no desk to close.
    pub fn without_desk(refusal: Refusal, left: Left<D>) -> Ended<D>
        ensures ending { ending_of result ≡ unopened refusal }
        ensures work { result.work ≡ Err (row_of refusal) }
        ensures closing { result.closing ≡ None }
        ensures left { result.left ≡ left }
    {
        Ended {
            work: Err(Fault::from(refusal)),
            closing: None,
            left,
        }
    }

    /// Drops what is left.
    pub fn ending(self) -> Ending
        ensures { result ≡ ending_of self }
    {
        let Ended { work, closing, .. } = self;
        Ending { work, closing }
    }
}
