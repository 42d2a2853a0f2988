//! Faults of bodies as refusals of a request, and refusals of a desk as answers.
ghost use Rattle.std.specs.Prelude.{◌≡◌, ◌≢◌, IfOk, None, Some};
ghost use Rattle.authenticode.specs.Faults as carried;
ghost use Rattle.pe_image.specs.Faults as layout;
ghost use Rattle.sbat.specs.Refusals as sbat_faults;
ghost use Rattle.siglist.specs.ListsFaults as lists;
ghost use Rattle.desk_inputs.specs.imports.Faults as imports;
ghost use Rattle.desk_inputs.specs.Faults as facts;
ghost use Rattle.http_responses.specs.Refusals.{outage_refusal};
ghost use Rattle.http_calls.specs.Answers.{IsRefusal};
ghost use Rattle.http_calls.specs.Bodies.{RefusesAs};
ghost use Rattle.desk_exports.specs.Desks.{IsOutage};
ghost use Rattle.http_calls.specs.Desks.{IsTold};

use crate::answers::TaskAnswer;
use authenticode::CarriedFault;
use base::Refusal;
use desk_inputs::{FactsFault, ImportFault};
use http_responses::{Outage, Refused};
use pe_image::LayoutFault;
use sbat::SbatFault;
use siglist::ListsFault;
use std::alloc::AllocError;

/// Why the desk can't answer.
pub(crate) fn outage(refusal: Refusal) -> Outage
    requires { IsOutage refusal }
    ensures refusal { outage_refusal result ≡ refusal }
    ensures store { result ≡ Outage.Store → refusal ≡ Refusal.Store }
    ensures reopen { refusal ≡ Refusal.Reopen → result ≡ Outage.Reopen }
{
    if refusal == Refusal::NoMemory {
        return Outage::NoMemory;
    }
    if refusal == Refusal::Store {
        return Outage::Store;
    }
    Outage::Reopen
}

/// The answer that a desk's refusal is.
pub(crate) fn refuse(refusal: Refusal) -> TaskAnswer
    requires { IsTold refusal }
    ensures { IsRefusal refusal result }
{
    match Refused::of(refusal) {
        Some(refused) => TaskAnswer::Refused(refused),
        None => TaskAnswer::Unavailable(outage(refusal)),
    }
}

/// The refusal of an image without a layout, all of whose reads succeeded.
fn of_layout(fault: LayoutFault) -> Refused
    requires { layout.refusal_of fault ≢ Refusal.Read }
    ensures tells { RefusesAs (layout.refusal_of fault) None result }
{
    match fault {
        LayoutFault::Short => Refused::Short,
        LayoutFault::NoMz => Refused::NoMz,
        LayoutFault::NoPe => Refused::NoPe,
        LayoutFault::Magic => Refused::Magic,
        LayoutFault::NotEfi => Refused::NotEfi,
        LayoutFault::Headers => Refused::Headers,
        LayoutFault::Sections => Refused::Sections,
        LayoutFault::Overlap => Refused::Overlap,
        LayoutFault::Table => Refused::Table,
        LayoutFault::TwoSbat => Refused::TwoSbat,
        LayoutFault::TooLong => Refused::TooLong,
        LayoutFault::Read => unreachable!(),
    }
}

/// The refusal for an image's certificates, unless memory was refused.
fn of_carried(fault: CarriedFault) -> Result<Refused, AllocError>
    ensures tells { IfOk result (RefusesAs (carried.refusal_of fault) None) }
{
    match fault {
        CarriedFault::Table => Ok(Refused::Table),
        CarriedFault::Der => Ok(Refused::Der),
        CarriedFault::TooLong => Ok(Refused::TooLong),
        CarriedFault::NoMemory => Err(AllocError),
    }
}

/// The refusal for SBAT text, with the number of its line, unless memory was refused.
fn of_sbat(fault: SbatFault) -> Result<Refused, AllocError>
    ensures tells { IfOk result
        (RefusesAs (sbat_faults.refusal_of fault) (sbat_faults.place_of fault)) }
{
    match fault {
        SbatFault::Row(line) => Ok(Refused::SbatRow(line)),
        SbatFault::TooLong => Ok(Refused::TooLong),
        SbatFault::NoMemory => Err(AllocError),
    }
}

/// The refusal for signature lists, with the offset of the list.
fn of_lists(fault: ListsFault) -> Refused
    ensures tells { RefusesAs (lists.refusal_of fault) (Some (lists.place_of fault)) result }
{
    match fault {
        ListsFault::List { offset } => Refused::List(offset),
        ListsFault::EntrySize { offset } => Refused::EntrySize(offset),
    }
}

/// The refusal of an image, all of whose reads succeeded, unless memory was refused.
pub(crate) fn of_facts(fault: FactsFault) -> Result<Refused, AllocError>
    requires { facts.refusal_of fault ≢ Refusal.Read }
    ensures tells { IfOk result (RefusesAs (facts.refusal_of fault) (facts.place_of fault)) }
{
    match fault {
        FactsFault::Layout(fault) => Ok(of_layout(fault)),
        FactsFault::Read => unreachable!(),
        FactsFault::Carried(fault) => of_carried(fault),
        FactsFault::Components(fault) => of_sbat(fault),
        FactsFault::NoMemory => Err(AllocError),
    }
}

/// The refusal of an import, unless memory was refused.
pub(crate) fn of_import(fault: ImportFault) -> Result<Refused, AllocError>
    ensures tells { IfOk result (RefusesAs (imports.refusal_of fault) (imports.place_of fault)) }
{
    match fault {
        ImportFault::Lists(fault) => Ok(of_lists(fault)),
        ImportFault::Record(number) => Ok(Refused::CsvRow(number)),
        ImportFault::Line(number) => Ok(Refused::SbatRow(number)),
        ImportFault::TooLong => Ok(Refused::TooLong),
        ImportFault::NoMemory => Err(AllocError),
    }
}
