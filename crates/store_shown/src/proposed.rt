//! The proposals, all or from a number on, as an officer is shown them.
ghost use Rattle.std.specs.Prelude.{◌≡◌, option_copied};
ghost use Rattle.store_shown.specs.Telling.{RefusesAs, ShowsTo};
ghost use Rattle.store_sql.specs.States.{DoesInside, CommitsNothing, Spares, StaysInside};
ghost use Rattle.desk_exports.specs.declared.reading.Reading.TheVariants as read;

use crate::listing::{MOST_OF_PART, passed_before};
use crate::officer::officer_of;
use base::Refusal;
use desk_exports::{RequestList, Shown, ShownProposals};
use desk_types::Person;
use sqlite::{Alter, Transaction};
use std::alloc::Global;
use store_proposals::{proposals, proposals_after, proposals_are_listable};
use store_reads::{Counted, ReadFault, count};

/// All proposals, ascending by number, for the person of this name, who must be an officer. The
/// person isn't looked up if that is `kept_person`, who must be one of the desk's people (`value`).
/// Takes memory for what is shown of them, and for all items of one import at a time.
///
/// `UnknownCaller`: nobody has the name. `NotYourRole`: the person isn't an officer, and no
/// proposal is read.
pub(crate) fn proposals_of<S: Alter, L: RequestList + Drop>(
    alloc: Global,
    tx: &mut Transaction<'_, S>,
    kept_person: Option<&Person>,
    person: &Person,
) -> Result<Result<Shown<L>, Refusal>, ReadFault>
    ensures same_reference { tx.new.conn.ghost_name ≡ tx.old.conn.ghost_name }
    ensures value { DoesInside S.Store tx.old.conn.now tx.new.conn.now result
        (λ given. ShowsTo L.RequestList.holds (option_copied kept_person.entry) person.now
        read.Proposals given) }
    ensures named { RefusesAs read.Proposals result }
    ensures inside { StaysInside S.Store tx.old.conn.now tx.new.conn.now result }
    ensures kept { CommitsNothing S.Store tx.old.conn.now tx.new.conn.now }
    ensures survives { Spares S.Store tx.old.conn.now tx.new.conn.now }
{
    proposals_are_listable();
    let officer = officer_of(alloc, tx, kept_person, &person.name)?;
    if let Err(refusal) = officer {
        return Ok(Err(refusal));
    }
    let found = proposals(alloc, tx)?;
    let shown = ShownProposals::new(found);
    Ok(Ok(Shown::Proposals(shown)))
}

/// Those of them with this number or a later one, at most 1,000. The proposals before that number
/// aren't read, and none after the last that is given.
///
/// `UnknownCaller`: nobody has the name. `NotYourRole`: the person isn't an officer, and no
/// proposal is read.
pub(crate) fn proposals_from<S: Alter, L: RequestList + Drop>(
    alloc: Global,
    tx: &mut Transaction<'_, S>,
    kept_person: Option<&Person>,
    person: &Person,
    number: u64,
) -> Result<Result<Shown<L>, Refusal>, ReadFault>
    ensures same_reference { tx.new.conn.ghost_name ≡ tx.old.conn.ghost_name }
    ensures value { DoesInside S.Store tx.old.conn.now tx.new.conn.now result
        (λ given. ShowsTo L.RequestList.holds (option_copied kept_person.entry) person.now
        (read.ProposalsFrom number) given) }
    ensures named { RefusesAs (read.ProposalsFrom number) result }
    ensures inside { StaysInside S.Store tx.old.conn.now tx.new.conn.now result }
    ensures kept { CommitsNothing S.Store tx.old.conn.now tx.new.conn.now }
    ensures survives { Spares S.Store tx.old.conn.now tx.new.conn.now }
{
    proposals_are_listable();
    let officer = officer_of(alloc, tx, kept_person, &person.name)?;
    if let Err(refusal) = officer {
        return Ok(Err(refusal));
    }
    let count = count(tx, Counted::Proposals)?;
    let passed = passed_before(number, count);
    let found = proposals_after(alloc, tx, None, passed, count, MOST_OF_PART)?;
    let shown = ShownProposals::new(found);
    Ok(Ok(Shown::Proposals(shown)))
}
