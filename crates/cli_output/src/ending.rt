//! The exit status of a subcommand over a desk's file.
ghost use Rattle.std.specs.Prelude.{◌≡◌};
ghost use Rattle.cli_output.specs.Endings.{unopened};

use crate::fault::Fault;
use base::Refusal;

/// The outcome of a subcommand's work.
#[derive(Clone, Copy, Debug, PartialEq, Eq)]
pub enum WorkOutcome {
    /// It is done.
    Done,
    /// The desk doesn't allow the image, or the Confirm would bar an image that it allows now.
    Refused,
}

/// The end of a subcommand over a desk's file.
#[derive(Clone, Copy, Debug, PartialEq, Eq)]
pub struct Ending {
    /// The outcome of its work, or the fault that stopped it.
    pub work: Result<WorkOutcome, Fault>,
    /// The fault of closing the desk afterwards.
    pub closing: Option<Fault>,
}

impl Ending {
    /// The end of a subcommand that has no desk to close.
    pub fn without_desk(refusal: Refusal) -> Ending
        ensures { result ≡ unopened refusal }
    {
        Ending {
            work: Err(Fault::from(refusal)),
            closing: None,
        }
    }
}
