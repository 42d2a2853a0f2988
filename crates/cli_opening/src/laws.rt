//! Laws of how a subcommand ends, and of the files that it leaves.
ghost use Rattle.std.specs.Prelude.{◌≡◌, ℕ, List, Some};
ghost use Rattle.sqlite_wal.specs.Recovery.{Image};
ghost use Rattle.desk_history.specs.Calls.{History};
ghost use Rattle.store_desk.specs.Closed.{HoldsClosed};
ghost use Rattle.cli_output.specs.Endings.{status_of_ending};
ghost use Rattle.cli_output.specs.Faults.{IsRow};
ghost use Rattle.cli_opening.specs.Faults.{IsClosingRefusal};
ghost use Rattle.cli_opening.specs.Opening.{HoldsDesk};

use cli_output::{Ending, Fault};

/// A desk that couldn't be closed ends its subcommand with status 3, whatever the outcome of its
/// work.
pub fn a_failed_close_is_a_device()
    ensures { (ending : Ending) (fault : Fault) → ending.closing ≡ Some fault
        → IsRow IsClosingRefusal fault → status_of_ending ending ≡ 3 }
{}

/// The files of a closed desk hold the history that it showed. So the desk that is opened in files
/// that hold the same at first shows it (`IsOpened`).
pub fn closed_files_hold_the_desk()
    ensures { (image : Image) (owner : List ℕ) (cs : History) → HoldsClosed image owner cs
        → HoldsDesk image owner cs }
{}
