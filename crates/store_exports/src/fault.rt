//! Reasons why an export stops.
ghost use Rattle.std.specs.Prelude.{◌≡◌};
ghost use Rattle.store_exports.specs.Faults.{IsExportFailure, row_of};
ghost use Rattle.store_exports.specs.declared.fault.ExportFault.TheVariants as faults;

use base::{Refusal, WriteFailed};
use store_reads::ReadFault;

/// Why an export stopped.
#[derive(Clone, Copy, Debug, PartialEq, Eq)]
pub(crate) enum ExportFault {
    /// A row wasn't read, or isn't the desk's.
    Read(ReadFault),
    /// The writer failed.
    Write,
}

impl From<ReadFault> for ExportFault {
    ghost from_gives = { λ fault gives. gives ≡ faults.Read fault };

    fn from(fault: ReadFault) -> ExportFault {
        ExportFault::Read(fault)
    }
}

impl From<WriteFailed> for ExportFault {
    ghost from_gives = { λ _ gives. gives ≡ faults.Write };

    fn from(_fault: WriteFailed) -> ExportFault {
        ExportFault::Write
    }
}

impl ExportFault {
    /// Its row in the table of refusals.
    pub(crate) fn refusal(self) -> Refusal
        ensures exact { result ≡ row_of self }
        ensures named { IsExportFailure result }
    {
        match self {
            ExportFault::Read(fault) => fault.refusal(),
            ExportFault::Write => Refusal::Write,
        }
    }
}
