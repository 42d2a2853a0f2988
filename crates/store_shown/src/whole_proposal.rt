//! One proposal with all that it names, as an officer is shown it.
ghost use Rattle.std.specs.Prelude.{◌≡◌, option_copied};
ghost use Rattle.store_shown.specs.Telling.{RefusesAs, ShowsTo};
ghost use Rattle.store_sql.specs.States.{DoesInside, CommitsNothing, Spares, StaysInside};
ghost use Rattle.desk_exports.specs.declared.reading.Reading.TheVariants as read;

use crate::officer::officer_of;
use base::Refusal;
use desk_exports::{RequestList, Shown};
use desk_types::{Person, ProposalNumber};
use sqlite::{Alter, Transaction};
use std::alloc::Global;
use store_proposals::stamps_are_above_none;
use store_reads::ReadFault;

/// The proposal of this number with all that it names, for the person of this name, who must be an
/// officer. The person isn't looked up if that is `kept_person`, who must be one of the desk's
/// people (`value`). Takes memory for its rows, twice for components.
///
/// `UnknownCaller`: nobody has the name. `NotYourRole`: the person isn't an officer, and no
/// proposal is read. `NoSuchProposal`: no proposal has the number.
pub(crate) fn proposal_for_officer<S: Alter, L: RequestList + Drop>(
    alloc: Global,
    tx: &mut Transaction<'_, S>,
    kept_person: Option<&Person>,
    person: &Person,
    number: ProposalNumber,
) -> Result<Result<Shown<L>, Refusal>, ReadFault>
    ensures same_reference { tx.new.conn.ghost_name ≡ tx.old.conn.ghost_name }
    ensures value { DoesInside S.Store tx.old.conn.now tx.new.conn.now result
        (λ given. ShowsTo L.RequestList.holds (option_copied kept_person.entry) person.now
        (read.Proposal number) given) }
    ensures named { RefusesAs (read.Proposal number) result }
    ensures inside { StaysInside S.Store tx.old.conn.now tx.new.conn.now result }
    ensures kept { CommitsNothing S.Store tx.old.conn.now tx.new.conn.now }
    ensures survives { Spares S.Store tx.old.conn.now tx.new.conn.now }
{
    stamps_are_above_none();
    let officer = officer_of(alloc, tx, kept_person, &person.name)?;
    if let Err(refusal) = officer {
        return Ok(Err(refusal));
    }
    let found = store_proposals::proposal_of(alloc, tx, number)?;
    let Some(row) = found else {
        return Ok(Err(Refusal::NoSuchProposal));
    };
    Ok(Ok(Shown::Proposal(row)))
}
