//! Refusals of an image.
ghost use Rattle.std.specs.Prelude.{◌≡◌};
ghost use Rattle.desk_inputs.specs.Faults.{of_part, place_of, read_failed, refusal_of};
ghost use Rattle.desk_inputs.specs.declared.fault.FactsFault.TheVariants as fact;

use crate::part::PartFault;
use authenticode::CarriedFault;
use base::Refusal;
use pe_image::{LayoutFault, ReadFailed};
use sbat::SbatFault;
use thiserror::Error;

/// Why an image was refused, or the failure of reading it.
#[derive(Clone, Copy, Debug, PartialEq, Eq, Error)]
pub enum FactsFault {
    /// It has no layout.
    #[error("the image: {0}")]
    Layout(LayoutFault),
    /// A read after the headers failed.
    #[error("a read failed")]
    Read,
    /// Its certificates can't be read.
    #[error("the certificates: {0}")]
    Carried(CarriedFault),
    /// Its components can't be read.
    #[error("the components: {0}")]
    Components(SbatFault),
    /// Memory was refused.
    #[error("memory was refused")]
    NoMemory,
}

impl From<LayoutFault> for FactsFault {
    ghost from_gives = { λ layout fault. fault ≡ fact.Layout layout };

    fn from(fault: LayoutFault) -> FactsFault {
        FactsFault::Layout(fault)
    }
}

impl From<ReadFailed> for FactsFault {
    ghost from_gives = { λ _ fault. fault ≡ read_failed };

    fn from(_: ReadFailed) -> FactsFault {
        FactsFault::Read
    }
}

impl From<PartFault> for FactsFault {
    ghost from_gives = { λ part fault. fault ≡ of_part part };

    fn from(fault: PartFault) -> FactsFault {
        match fault {
            PartFault::Read => FactsFault::Read,
            PartFault::NoMemory => FactsFault::NoMemory,
        }
    }
}

impl From<CarriedFault> for FactsFault {
    ghost from_gives = { λ carried fault. fault ≡ fact.Carried carried };

    fn from(fault: CarriedFault) -> FactsFault {
        FactsFault::Carried(fault)
    }
}

impl From<SbatFault> for FactsFault {
    ghost from_gives = { λ sbat fault. fault ≡ fact.Components sbat };

    fn from(fault: SbatFault) -> FactsFault {
        FactsFault::Components(fault)
    }
}

impl FactsFault {
    /// Its row in the table of refusals.
    pub fn refusal(self) -> Refusal
        ensures { result ≡ refusal_of self }
    {
        match self {
            FactsFault::Layout(fault) => fault.refusal(),
            FactsFault::Read => Refusal::Read,
            FactsFault::Carried(fault) => fault.refusal(),
            FactsFault::Components(fault) => fault.refusal(),
            FactsFault::NoMemory => Refusal::NoMemory,
        }
    }

    /// The number of the line of SBAT text that was refused.
    pub fn place(self) -> Option<u64>
        ensures { result ≡ place_of self }
    {
        match self {
            FactsFault::Components(fault) => fault.place(),
            FactsFault::Layout(_)
            | FactsFault::Read
            | FactsFault::Carried(_)
            | FactsFault::NoMemory => None,
        }
    }
}
