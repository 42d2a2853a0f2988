//! The number that changes whenever what a person may see of requests or proposals changed.
ghost use Rattle.std.specs.Prelude.{◌≡◌, ◌+◌, IfOk, length, option_copied};
ghost use Rattle.desk_exports.specs.Changes.{end_of};
ghost use Rattle.store_reads.specs.Reads.{ReadsTables};
ghost use Rattle.store_shown.specs.Happening.{HappenedTo, HappenedToFirst, is_submitter};
ghost use Rattle.store_shown.specs.Telling.{RefusesAs, ShowsTo};
ghost use Rattle.store_sql.specs.States.{DoesInside, CommitsNothing, Spares, StaysInside};
ghost use Rattle.desk_exports.specs.declared.reading.Reading.TheVariants as read;

use crate::reader::reader_of;
use crate::showing::is_shown_to;
use base::Refusal;
use desk_exports::{RequestList, Shown};
use desk_history::VoteRow;
use desk_types::{Person, RequestNumber, Role, State};
use sqlite::{Alter, Transaction};
use std::alloc::Global;
use store_reads::{Counted, ReadFault, count, request_numbered, votes_of};

/// Whether the role is a submitter's.
fn is_submitter(role: Role) -> bool
    ensures { result ≡ is_submitter role }
{
    match role {
        Role::Submitter => true,
        Role::Reviewer | Role::Officer | Role::Signer => false,
    }
}

/// What a request's state adds to the number: 1 for a withdrawal, 2 for a returned file.
fn end_of(state: State) -> u64
    ensures { result ≡ end_of state }
{
    match state {
        State::Open | State::Approved | State::Rejected => 0,
        State::Withdrawn => 1,
        State::Signed => 2,
    }
}

/// The sum. `Store`: it is more than a number counts.
fn sum(one: u64, other: u64) -> Result<u64, ReadFault>
    ensures { IfOk result (λ n. n ≡ one + other) }
{
    match one.checked_add(other) {
        Some(n) => Ok(n),
        None => Err(ReadFault::Store),
    }
}

/// What happened to a request in this state with these votes.
fn events_by(state: State, votes: &[VoteRow]) -> Result<u64, ReadFault>
    ensures { IfOk result (λ n. n ≡ 1 + length votes.now + end_of state) }
{
    let own = sum(1, votes.len() as u64)?;
    let events = sum(own, end_of(state))?;
    Ok(events)
}

/// What happened to the request of this number, if the person is shown it: its submission, its
/// votes, and its end. Votes are read only then.
///
/// `Row`: no request has the number. `Store`: more votes than a number counts.
fn events_of<S: Alter>(
    alloc: Global,
    tx: &mut Transaction<'_, S>,
    reader: &Person,
    number: u64,
) -> Result<u64, ReadFault>
    ensures same_reference { tx.new.conn.ghost_name ≡ tx.old.conn.ghost_name }
    ensures value { DoesInside S.Store tx.old.conn.now tx.new.conn.now result
        (λ n. ReadsTables (λ t. HappenedTo reader.now t number n)) }
    ensures kept { CommitsNothing S.Store tx.old.conn.now tx.new.conn.now }
    ensures survives { Spares S.Store tx.old.conn.now tx.new.conn.now }
{
    let Some(number) = RequestNumber::new(number) else {
        return Err(ReadFault::Row);
    };
    let Some(row) = request_numbered(alloc, tx, number)? else {
        return Err(ReadFault::Row);
    };
    if !is_shown_to(reader, &row) {
        return Ok(0);
    }
    let votes = votes_of(alloc, tx, row.number)?;
    let events = events_by(row.state, &votes)?;
    Ok(events)
}

/// What happened to those of the first requests that the person is shown.
///
/// `Store`: more than a number counts.
fn events_of_first<S: Alter>(
    alloc: Global,
    tx: &mut Transaction<'_, S>,
    reader: &Person,
    count: u64,
) -> Result<u64, ReadFault>
    ensures same_reference { tx.new.conn.ghost_name ≡ tx.old.conn.ghost_name }
    ensures value { DoesInside S.Store tx.old.conn.now tx.new.conn.now result
        (λ n. ReadsTables (λ t. HappenedToFirst reader.now t count n)) }
    ensures kept { CommitsNothing S.Store tx.old.conn.now tx.new.conn.now }
    ensures survives { Spares S.Store tx.old.conn.now tx.new.conn.now }
{
    let mut number = 0;
    let mut events = 0;
    while number < count {
        number += 1;
        let more = events_of(alloc, tx, reader, number)?;
        events = sum(events, more)?;
    }
    Ok(events)
}

/// What happened to those of all requests that the person is shown.
///
/// `Store`: more than a number counts.
fn events_of_all<S: Alter>(
    alloc: Global,
    tx: &mut Transaction<'_, S>,
    reader: &Person,
) -> Result<u64, ReadFault>
    ensures same_reference { tx.new.conn.ghost_name ≡ tx.old.conn.ghost_name }
    ensures value { DoesInside S.Store tx.old.conn.now tx.new.conn.now result
        (λ n. ReadsTables (λ t. HappenedToFirst reader.now t (length t.requests) n)) }
    ensures inside { StaysInside S.Store tx.old.conn.now tx.new.conn.now result }
    ensures kept { CommitsNothing S.Store tx.old.conn.now tx.new.conn.now }
    ensures survives { Spares S.Store tx.old.conn.now tx.new.conn.now }
{
    let count = count(tx, Counted::Requests)?;
    let events = events_of_first(alloc, tx, reader, count)?;
    Ok(events)
}

/// A number that changes whenever what the person of this name may see of requests or proposals
/// changed: how many calls the desk accepted; for a submitter, how much happened to the own
/// requests, of which each is read, and of others the row. The person isn't looked up if that is
/// `kept_person`, who must be one of the desk's people (`value`). Takes memory for one request's
/// votes at a time.
///
/// `UnknownCaller`: nobody has the name.
pub(crate) fn changes_of<S: Alter, L: RequestList + Drop>(
    alloc: Global,
    tx: &mut Transaction<'_, S>,
    kept_person: Option<&Person>,
    person: &Person,
) -> Result<Result<Shown<L>, Refusal>, ReadFault>
    ensures same_reference { tx.new.conn.ghost_name ≡ tx.old.conn.ghost_name }
    ensures value { DoesInside S.Store tx.old.conn.now tx.new.conn.now result
        (λ given. ShowsTo L.RequestList.holds (option_copied kept_person.entry) person.now
        read.Changes given) }
    ensures named { RefusesAs read.Changes result }
    ensures inside { StaysInside S.Store tx.old.conn.now tx.new.conn.now result }
    ensures kept { CommitsNothing S.Store tx.old.conn.now tx.new.conn.now }
    ensures survives { Spares S.Store tx.old.conn.now tx.new.conn.now }
{
    let found = reader_of(alloc, tx, kept_person, &person.name)?;
    let Some(reader) = found else {
        return Ok(Err(Refusal::UnknownCaller));
    };
    if !is_submitter(reader.role) {
        let calls = count(tx, Counted::Calls)?;
        return Ok(Ok(Shown::Changes(calls)));
    }
    let events = events_of_all(alloc, tx, &reader)?;
    Ok(Ok(Shown::Changes(events)))
}
