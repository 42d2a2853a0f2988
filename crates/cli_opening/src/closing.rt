//! A desk's file, closed.
ghost use Rattle.std.specs.Prelude.{◌≡◌, None, IfErr, IfOk, IfSome, true};
ghost use Rattle.cli_output.specs.Faults.{IsRow};
ghost use Rattle.cli_opening.specs.Closing.{AreOfClosed, Ends, FailsForGood};
ghost use Rattle.cli_opening.specs.Faults.{IsClosingRefusal, IsLasting};
ghost use Rattle.cli_opening.specs.Leaving.{IsLeft, IsOfBroken, ending_of};

use crate::ended::Ended;
use crate::left::Left;
use base::Refusal;
use cli_output::{Fault, WorkOutcome};
use sqlite::{FileStore, Files};
use sqlite_disk::Disk;
use store_desk::Desk;

/// Closes a desk's file: the contents of its log are copied into it. A refusal returns its store:
/// both files together are the desk then.
fn close<D: Disk + Drop>(desk: Desk<FileStore<D>>) -> Result<Files<D>, (Refusal, FileStore<D>)>
    ensures closed { IfOk result (AreOfClosed D.Disk desk) }
    ensures broken { IfErr result (λ e. IsOfBroken D.Disk desk e.1) }
    ensures named { IfErr result (λ e. IsClosingRefusal e.0) }
{
    match desk.close() {
        Ok(files) => Ok(files),
        Err((refusal, store)) => Err((refusal, store)),
    }
}

/// Whether a desk that answered this must be opened again.
fn is_lasting(refusal: Refusal) -> bool
    ensures lasting { IsLasting refusal → result ≡ true }
    ensures only { result ≡ true → IsLasting refusal }
{
    matches!(refusal, Refusal::Store | Refusal::Reopen)
}

/// Whether the desk must be opened again after this work, so that it can't be closed.
fn needs_reopening(work: &Result<WorkOutcome, Fault>) -> bool
    ensures lasting { IfErr work.now (λ fault. IsLasting fault.refusal → result ≡ true) }
    ensures only { result ≡ true → FailsForGood work.now }
{
    match work {
        Ok(_) => false,
        Err(fault) => is_lasting(fault.refusal),
    }
}

/// Closes the desk after its work. A desk that failed isn't closed: its next opening finds what it
/// stored.
pub fn close_after<D: Disk + Drop>(
    desk: Desk<FileStore<D>>,
    work: Result<WorkOutcome, Fault>,
) -> Ended<D>
    ensures work { result.work ≡ work }
    ensures closed { Ends D.Disk desk (ending_of result) }
    ensures left { IsLeft D.Disk desk (ending_of result) result.left.rest }
    ensures closing { IfSome result.closing (IsRow IsClosingRefusal) }
    ensures let_go { IfErr work (λ fault. IsLasting fault.refusal → result.closing ≡ None) }
{
    if needs_reopening(&work) {
        return Ended {
            work,
            closing: None,
            left: Left::unclosed(desk.release()),
        };
    }
    match close(desk) {
        Ok(files) => Ended {
            work,
            closing: None,
            left: Left::closed(files),
        },
        Err((refusal, store)) => Ended {
            work,
            closing: Some(Fault::from(refusal)),
            left: Left::broken(store),
        },
    }
}
