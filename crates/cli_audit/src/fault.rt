//! The rows of the table of refusals for an audit.
ghost use Rattle.std.specs.Prelude.{◌≡◌};
ghost use Rattle.store_minutes.specs.declared.lines.LineWatch.{LineWatch};
ghost use Rattle.cli_commands.specs.Faults.{IsWritingRefusal};
ghost use Rattle.base.specs.declared.refusal.Refusal.TheVariants as refusals;
ghost use Rattle.cli_output.specs.Faults.{IsRow, row_of};
ghost use Rattle.cli_audit.specs.Faults.{IsAuditRefusal, of_audit};

use base::Refusal;
use cli_output::Fault;
use store_audit::in_memory;
use store_minutes::AuditFault;

/// The row for minutes that aren't those of a desk, or aren't followed.
pub fn fault_row(fault: AuditFault) -> Fault
    ensures { result ≡ of_audit fault }
{
    match fault {
        AuditFault::Line(number) => Fault {
            refusal: Refusal::Minute,
            place: Some(number),
        },
        AuditFault::Device(refusal) => Fault::from(refusal),
    }
}

/// The row for an export of a desk in memory.
pub(crate) fn row_in_memory(fault: Fault) -> Fault
    ensures named { IsRow IsWritingRefusal fault → (watch : LineWatch)
        → IsRow (IsAuditRefusal watch) result }
    ensures write { fault ≡ row_of refusals.Write → result ≡ row_of refusals.Write }
{
    Fault {
        refusal: in_memory(fault.refusal),
        place: fault.place,
    }
}
