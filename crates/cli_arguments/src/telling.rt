//! What a subcommand tells on standard error, and its exit status.
ghost use Rattle.std.specs.Prelude.{◌≡◌};
ghost use Rattle.cli_output.specs.Endings.{status_of_ending};
ghost use Rattle.cli_output.specs.Statuses.{status_of};
ghost use Rattle.cli_arguments.specs.Statuses.{status_of_run, status_of_stop};

use crate::causes::{Opened, tell_cause};
use crate::values::Stop;
use cli_output::{Ending, Fault, print_ending, print_fault};

/// The status of words that aren't understood.
pub(crate) const MISUSED: u8 = 2;

/// Prints a fault, and returns its status.
pub(crate) fn tell_fault(rt: &HostRuntime, fault: Fault) -> u8
    ensures { result ≡ status_of fault.refusal }
{
    print_fault(fault.refusal, fault.place, &mut rt.stderr()).status
}

/// Prints why a subcommand stopped before its work, and returns the status for that.
fn tell_stop(rt: &HostRuntime, why: Stop) -> u8
    ensures { result ≡ status_of_stop why }
{
    match why {
        Stop::Word(word) => {
            let name = word.name();
            let _ = eprintln!(rt; "bad {name}");
            MISUSED
        }
        Stop::Fault(fault) => tell_fault(rt, fault),
    }
}

/// Prints the fault that stopped a subcommand's work, and then that of a failed close, and the cause
/// where a file couldn't be opened. Returns the subcommand's status.
fn tell_ending(rt: &HostRuntime, ending: Ending, opened: Opened<'_>) -> u8
    ensures { result ≡ status_of_ending ending }
{
    let status = print_ending(ending, &mut rt.stderr()).status;
    if let Err(fault) = ending.work {
        tell_cause(rt, fault, opened);
    }
    status
}

/// Prints the faults of a run that ended so, and the cause where a file couldn't be opened. Returns
/// its status.
pub fn tell_run(rt: &HostRuntime, ended: Result<Ending, Stop>, opened: Opened<'_>) -> u8
    ensures { result ≡ status_of_run ended }
{
    match ended {
        Ok(ending) => tell_ending(rt, ending, opened),
        Err(why) => tell_stop(rt, why),
    }
}
