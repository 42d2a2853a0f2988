//! A row of the table of refusals, with its place.
ghost use Rattle.std.specs.Prelude.{◌≡◌};
ghost use Rattle.base.specs.declared.refusal.Refusal.TheVariants.{Write};
ghost use Rattle.cli_output.specs.Faults.{of_facts, of_input, of_layout, of_lists, of_pack, of_pieces, row_of};

use base::{InputFault, Refusal, WriteFailed};
use desk_inputs::FactsFault;
use pe_image::{LayoutFault, PiecesFault};
use siglist::{ListsFault, PackFault};

/// A row of the table of refusals, with its place if it has one.
#[derive(Clone, Copy, Debug, PartialEq, Eq)]
pub struct Fault {
    pub refusal: Refusal,
    pub place: Option<u64>,
}

impl From<Refusal> for Fault {
    ghost from_gives = { λ fault row. row ≡ row_of fault };

    fn from(refusal: Refusal) -> Fault {
        Fault {
            refusal,
            place: None,
        }
    }
}

impl From<PackFault> for Fault {
    ghost from_gives = { λ fault row. row ≡ of_pack fault };

    fn from(fault: PackFault) -> Fault {
        Fault {
            refusal: fault.refusal(),
            place: fault.place(),
        }
    }
}

impl From<LayoutFault> for Fault {
    ghost from_gives = { λ fault row. row ≡ of_layout fault };

    fn from(fault: LayoutFault) -> Fault {
        Fault::from(fault.refusal())
    }
}

impl From<FactsFault> for Fault {
    ghost from_gives = { λ fault row. row ≡ of_facts fault };

    fn from(fault: FactsFault) -> Fault {
        Fault {
            refusal: fault.refusal(),
            place: fault.place(),
        }
    }
}

impl From<ListsFault> for Fault {
    ghost from_gives = { λ fault row. row ≡ of_lists fault };

    fn from(fault: ListsFault) -> Fault {
        Fault {
            refusal: fault.refusal(),
            place: Some(fault.place()),
        }
    }
}

impl From<InputFault> for Fault {
    ghost from_gives = { λ fault row. row ≡ of_input fault };

    fn from(fault: InputFault) -> Fault {
        Fault::from(fault.refusal())
    }
}

impl From<PiecesFault> for Fault {
    ghost from_gives = { λ fault row. row ≡ of_pieces fault };

    fn from(fault: PiecesFault) -> Fault {
        Fault::from(fault.refusal())
    }
}

impl From<WriteFailed> for Fault {
    ghost from_gives = { λ _ row. row ≡ row_of Write };

    fn from(fault: WriteFailed) -> Fault {
        Fault::from(fault.refusal())
    }
}
