//! The last line of a subcommand over a desk's file.
ghost use Rattle.std.specs.Prelude.{◌≡◌, ◌++◌, Ok, OnOk};
ghost use Rattle.std.specs.Io.KnownBytes.{Appends};
ghost use Rattle.base.specs.Output.{AppendsBeginning};
ghost use Rattle.cli_output.specs.Endings.{TellsEnding, closing_line, status_after};
ghost use Rattle.cli_output.specs.Endings.{status_of_ending, status_of_work, work_line};

use crate::ending::{Ending, WorkOutcome};
use crate::fault::Fault;
use crate::printing::{Printed, print_fault};
use std::io::Write;

/// The status of an image that a desk doesn't allow.
const REFUSED: u8 = 1;

/// This status, and no line.
fn silent(status: u8) -> Printed
    ensures { result ≡ record { status = status; written = Ok tt } }
{
    Printed {
        status,
        written: Ok(()),
    }
}

/// Writes the line of the fault that stopped the work, if there is one, and returns the work's
/// status.
fn print_work<W: Write>(work: Result<WorkOutcome, Fault>, writer: &mut W) -> Printed
    ensures status { result.status ≡ status_of_work work }
    ensures whole { OnOk result.written (Appends (W.contents writer.old) (W.contents writer.new)
        (work_line work)) }
    ensures out { AppendsBeginning (W.contents writer.old) (W.contents writer.new)
        (work_line work) }
{
    match work {
        Ok(WorkOutcome::Done) => silent(0),
        Ok(WorkOutcome::Refused) => silent(REFUSED),
        Err(fault) => print_fault(fault.refusal, fault.place, writer),
    }
}

/// Writes the line of a failed close, and returns the status after it.
fn print_closing<W: Write>(status: u8, closing: Option<Fault>, writer: &mut W) -> Printed
    ensures status { result.status ≡ status_after status closing }
    ensures whole { OnOk result.written (Appends (W.contents writer.old) (W.contents writer.new)
        (closing_line closing)) }
    ensures out { AppendsBeginning (W.contents writer.old) (W.contents writer.new)
        (closing_line closing) }
{
    match closing {
        None => silent(status),
        Some(fault) => print_fault(fault.refusal, fault.place, writer),
    }
}

/// Writes the line of the fault that stopped a subcommand, then the line of a failed close, and
/// returns the exit status even if a write fails.
pub fn print_ending<W: Write>(ending: Ending, writer: &mut W) -> Printed
    ensures status { result.status ≡ status_of_ending ending }
    ensures whole { OnOk result.written (Appends (W.contents writer.old) (W.contents writer.new)
        (work_line ending.work ++ closing_line ending.closing)) }
    ensures out { TellsEnding (W.contents writer.old) (W.contents writer.new) ending }
{
    let work = print_work(ending.work, writer);
    let closing = print_closing(work.status, ending.closing, writer);
    match work.written {
        Ok(()) => closing,
        Err(fault) => Printed {
            status: closing.status,
            written: Err(fault),
        },
    }
}
