//! What waits for a person.
ghost use Rattle.std.specs.Prelude.{◌≡◌, Some, length, option_copied};
ghost use Rattle.store_proposals.specs.Numbered as numbered;
ghost use Rattle.store_reads.specs.Reads.{ReadsTables};
ghost use Rattle.store_shown.specs.Choosing.{ListsUpTo};
ghost use Rattle.store_shown.specs.Telling.{RefusesAs, ShowsTo};
ghost use Rattle.store_sql.specs.States.{DoesInside, CommitsNothing, Spares, StaysInside};
ghost use Rattle.desk_exports.specs.declared.reading.Reading.TheVariants as read;

use crate::choice::Choice;
use crate::listing::list_after;
use crate::officer::is_officer;
use crate::reader::reader_of;
use base::Refusal;
use desk_exports::{RequestList, Shown, ShownProposals};
use desk_types::{Person, PersonName, Proposal};
use sqlite::{Alter, Transaction};
use std::alloc::Global;
use store_proposals::{proposals_after, proposals_are_listable};
use store_reads::{Counted, ReadFault, count};

/// The requests that wait for the person.
fn requests_for<S: Alter, L: RequestList + Drop>(
    alloc: Global,
    tx: &mut Transaction<'_, S>,
    reader: &Person,
) -> Result<L, ReadFault>
    ensures same_reference { tx.new.conn.ghost_name ≡ tx.old.conn.ghost_name }
    ensures value { DoesInside S.Store tx.old.conn.now tx.new.conn.now result
        (λ list. ReadsTables (λ t. ListsUpTo Choice.Waiting reader.now t 0 (length t.requests)
        (length t.requests) (L.RequestList.holds list))) }
    ensures inside { StaysInside S.Store tx.old.conn.now tx.new.conn.now result }
    ensures kept { CommitsNothing S.Store tx.old.conn.now tx.new.conn.now }
    ensures survives { Spares S.Store tx.old.conn.now tx.new.conn.now }
{
    let count = count(tx, Counted::Requests)?;
    let list = list_after(alloc, tx, reader, &Choice::Waiting, 0, count, count)?;
    Ok(list)
}

/// The proposals that wait for the officer of this name.
fn proposals_for<S: Alter>(
    alloc: Global,
    tx: &mut Transaction<'_, S>,
    officer: &PersonName,
) -> Result<Vec<Proposal>, ReadFault>
    ensures same_reference { tx.new.conn.ghost_name ≡ tx.old.conn.ghost_name }
    ensures value { DoesInside S.Store tx.old.conn.now tx.new.conn.now result
        (λ list. ReadsTables (λ t. numbered.ListsUpTo (Some officer.now) t 0 (length t.proposals)
        (length t.proposals) list.items)) }
    ensures inside { StaysInside S.Store tx.old.conn.now tx.new.conn.now result }
    ensures kept { CommitsNothing S.Store tx.old.conn.now tx.new.conn.now }
    ensures survives { Spares S.Store tx.old.conn.now tx.new.conn.now }
{
    let count = count(tx, Counted::Proposals)?;
    let list = proposals_after(alloc, tx, Some(officer), 0, count, count)?;
    Ok(list)
}

/// What waits for the person of this name, each ascending by number: for an officer the open
/// proposals of others, and for everybody else requests, of which only the rows are read where they
/// tell that a request doesn't wait. The person isn't looked up if that is `kept_person`, who must
/// be one of the desk's people (`value`). Takes memory for one request or for all items of one
/// import at a time, and for the lists.
///
/// `UnknownCaller`: nobody has the name.
pub(crate) fn waiting_of<S: Alter, L: RequestList + Drop>(
    alloc: Global,
    tx: &mut Transaction<'_, S>,
    kept_person: Option<&Person>,
    person: &Person,
) -> Result<Result<Shown<L>, Refusal>, ReadFault>
    ensures same_reference { tx.new.conn.ghost_name ≡ tx.old.conn.ghost_name }
    ensures value { DoesInside S.Store tx.old.conn.now tx.new.conn.now result
        (λ given. ShowsTo L.RequestList.holds (option_copied kept_person.entry) person.now
        read.Waiting given) }
    ensures named { RefusesAs read.Waiting result }
    ensures inside { StaysInside S.Store tx.old.conn.now tx.new.conn.now result }
    ensures kept { CommitsNothing S.Store tx.old.conn.now tx.new.conn.now }
    ensures survives { Spares S.Store tx.old.conn.now tx.new.conn.now }
{
    proposals_are_listable();
    let found = reader_of(alloc, tx, kept_person, &person.name)?;
    let Some(reader) = found else {
        return Ok(Err(Refusal::UnknownCaller));
    };
    if is_officer(reader.role) {
        let requests = L::new(alloc);
        let waiting = proposals_for(alloc, tx, &reader.name)?;
        let proposals = ShownProposals::new(waiting);
        return Ok(Ok(Shown::Waiting(requests, proposals)));
    }
    let requests = requests_for(alloc, tx, &reader)?;
    let none = Vec::new(alloc);
    let proposals = ShownProposals::new(none);
    Ok(Ok(Shown::Waiting(requests, proposals)))
}
