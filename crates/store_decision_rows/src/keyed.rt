//! Rows by a key. A row with another key than the requested one isn't a desk's.
ghost use Rattle.std.specs.Prelude.{◌≡◌, ◌==◌, All, IfOk, IsTrue, filter, option_copied};
ghost use Rattle.store_schema.specs.rows.Values.{vote_values};
ghost use Rattle.desk_history.specs.Formed.{IsReadable};
ghost use Rattle.desk_history.specs.People.{has_name, has_token};
ghost use Rattle.desk_history.specs.Runs.{has_key};
ghost use Rattle.store_proposals.specs.Reading.{IsStamped};
ghost use Rattle.store_reads.specs.People.{IsOneOf};
ghost use Rattle.store_reads.specs.Reads.{AreFound, ReadsTables, listed};
ghost use Rattle.desk_rules.specs.Shown.{is_proposal_row, is_request_row};
ghost use Rattle.store_sql.specs.States.{DoesInside, CommitsNothing, Spares, StaysInside};
ghost use Rattle.store_schema.specs.Tables as tables;

use base::Digest;
use desk_history::{Minute, ProposalRow, RequestRow, VoteRow};
use desk_types::{Key, Person, ProposalNumber, RequestNumber};
use sqlite::{Alter, Transaction};
use std::alloc::Global;
use store_proposals::proposal_of;
use store_reads::{
    ReadFault, call_of, kept_named, person_named, person_of_token, request_numbered, votes_of,
};

/// The person of this name.
pub(crate) fn person<S: Alter>(
    alloc: Global,
    tx: &mut Transaction<'_, S>,
    name: &str,
) -> Result<Option<Person>, ReadFault>
    ensures same_reference { tx.new.conn.ghost_name ≡ tx.old.conn.ghost_name }
    ensures value { DoesInside S.Store tx.old.conn.now tx.new.conn.now result
        (λ person. ReadsTables (λ t. filter (has_name name.now) t.people ≡ listed person)) }
    ensures only { IfOk result (λ person. All (λ p. IsTrue (has_name name.now p)) (listed person)) }
    ensures inside { StaysInside S.Store tx.old.conn.now tx.new.conn.now result }
    ensures kept { CommitsNothing S.Store tx.old.conn.now tx.new.conn.now }
    ensures survives { Spares S.Store tx.old.conn.now tx.new.conn.now }
{
    let Some(person) = person_named(alloc, tx, name)? else {
        return Ok(None);
    };
    if name != person.name.as_str() {
        return Err(ReadFault::Row);
    }
    Ok(Some(person))
}

/// The person of this name: the one who is remembered, or else the row.
pub(crate) fn caller<S: Alter>(
    alloc: Global,
    tx: &mut Transaction<'_, S>,
    remembered_person: Option<&Person>,
    name: &str,
) -> Result<Option<Person>, ReadFault>
    ensures same_reference { tx.new.conn.ghost_name ≡ tx.old.conn.ghost_name }
    ensures value { DoesInside S.Store tx.old.conn.now tx.new.conn.now result
        (λ person. ReadsTables (λ t. IsOneOf (option_copied remembered_person.entry) t.people
        → filter (has_name name.now) t.people ≡ listed person)) }
    ensures only { IfOk result (λ person. All (λ p. IsTrue (has_name name.now p)) (listed person)) }
    ensures kept { CommitsNothing S.Store tx.old.conn.now tx.new.conn.now }
    ensures survives { Spares S.Store tx.old.conn.now tx.new.conn.now }
{
    let Some(person) = kept_named(remembered_person, name)? else {
        return person(alloc, tx, name);
    };
    Ok(Some(person))
}

/// The person with this token.
pub(crate) fn holder<S: Alter>(
    alloc: Global,
    tx: &mut Transaction<'_, S>,
    token: &Digest,
) -> Result<Option<Person>, ReadFault>
    ensures same_reference { tx.new.conn.ghost_name ≡ tx.old.conn.ghost_name }
    ensures value { DoesInside S.Store tx.old.conn.now tx.new.conn.now result
        (λ person. ReadsTables (λ t. filter (has_token token.now) t.people ≡ listed person)) }
    ensures only { IfOk result (λ person. All (λ p. IsTrue (has_token token.now p))
        (listed person)) }
    ensures inside { StaysInside S.Store tx.old.conn.now tx.new.conn.now result }
    ensures kept { CommitsNothing S.Store tx.old.conn.now tx.new.conn.now }
    ensures survives { Spares S.Store tx.old.conn.now tx.new.conn.now }
{
    let Some(person) = person_of_token(alloc, tx, token)? else {
        return Ok(None);
    };
    if *token != person.token {
        return Err(ReadFault::Row);
    }
    Ok(Some(person))
}

/// The call of this caller's name with this key.
pub(crate) fn earlier_call<S: Alter>(
    alloc: Global,
    tx: &mut Transaction<'_, S>,
    caller: &str,
    key: &Key,
) -> Result<Option<Minute>, ReadFault>
    ensures same_reference { tx.new.conn.ghost_name ≡ tx.old.conn.ghost_name }
    ensures value { DoesInside S.Store tx.old.conn.now tx.new.conn.now result
        (λ minute. ReadsTables (λ t. All IsReadable t.calls
        → filter (has_key caller.now key.now) t.calls ≡ listed minute)) }
    ensures only { IfOk result (λ minute. All (λ m. IsTrue (has_key caller.now key.now m))
        (listed minute)) }
    ensures inside { StaysInside S.Store tx.old.conn.now tx.new.conn.now result }
    ensures kept { CommitsNothing S.Store tx.old.conn.now tx.new.conn.now }
    ensures survives { Spares S.Store tx.old.conn.now tx.new.conn.now }
{
    let Some(minute) = call_of(alloc, tx, caller, key)? else {
        return Ok(None);
    };
    if caller != minute.caller.name() || key.as_str() != minute.key.as_str() {
        return Err(ReadFault::Row);
    }
    Ok(Some(minute))
}

/// The request of this number.
pub(crate) fn request<S: Alter>(
    alloc: Global,
    tx: &mut Transaction<'_, S>,
    number: RequestNumber,
) -> Result<Option<RequestRow>, ReadFault>
    ensures same_reference { tx.new.conn.ghost_name ≡ tx.old.conn.ghost_name }
    ensures value { DoesInside S.Store tx.old.conn.now tx.new.conn.now result
        (λ row. ReadsTables (λ t. filter (is_request_row number) t.requests ≡ listed row)) }
    ensures only { IfOk result (λ row. All (λ r. r.number ≡ number) (listed row)) }
    ensures inside { StaysInside S.Store tx.old.conn.now tx.new.conn.now result }
    ensures kept { CommitsNothing S.Store tx.old.conn.now tx.new.conn.now }
    ensures survives { Spares S.Store tx.old.conn.now tx.new.conn.now }
{
    let Some(row) = request_numbered(alloc, tx, number)? else {
        return Ok(None);
    };
    if number != row.number {
        return Err(ReadFault::Row);
    }
    Ok(Some(row))
}

/// The proposal of this number, with all that it names.
pub(crate) fn proposal<S: Alter>(
    alloc: Global,
    tx: &mut Transaction<'_, S>,
    number: ProposalNumber,
) -> Result<Option<ProposalRow>, ReadFault>
    ensures same_reference { tx.new.conn.ghost_name ≡ tx.old.conn.ghost_name }
    ensures value { DoesInside S.Store tx.old.conn.now tx.new.conn.now result
        (λ row. ReadsTables (λ t. All IsStamped t.proposals
        → filter (is_proposal_row number) t.proposals ≡ listed row)) }
    ensures only { IfOk result (λ row. All (λ r. r.number ≡ number) (listed row)) }
    ensures inside { StaysInside S.Store tx.old.conn.now tx.new.conn.now result }
    ensures kept { CommitsNothing S.Store tx.old.conn.now tx.new.conn.now }
    ensures survives { Spares S.Store tx.old.conn.now tx.new.conn.now }
{
    let Some(proposal) = proposal_of(alloc, tx, number)? else {
        return Ok(None);
    };
    if number != proposal.number {
        return Err(ReadFault::Row);
    }
    Ok(Some(proposal))
}

/// Whether each of the votes is on the request.
fn are_on(votes: &[VoteRow], number: RequestNumber) -> bool
    ensures { IsTrue result → All (λ v. v.request ≡ number) votes.now }
{
    votes.iter().all(|vote| vote.request == number)
}

/// The votes on the request of this number.
pub(crate) fn votes<S: Alter>(
    alloc: Global,
    tx: &mut Transaction<'_, S>,
    number: RequestNumber,
) -> Result<Vec<VoteRow>, ReadFault>
    ensures same_reference { tx.new.conn.ghost_name ≡ tx.old.conn.ghost_name }
    ensures value { DoesInside S.Store tx.old.conn.now tx.new.conn.now result
        (λ rows. ReadsTables (λ t. AreFound vote_values tables.votes 2
        (λ v. number == v.request) t.votes rows.items)) }
    ensures only { IfOk result (λ rows. All (λ v. v.request ≡ number) rows.items) }
    ensures inside { StaysInside S.Store tx.old.conn.now tx.new.conn.now result }
    ensures kept { CommitsNothing S.Store tx.old.conn.now tx.new.conn.now }
    ensures survives { Spares S.Store tx.old.conn.now tx.new.conn.now }
{
    let rows = votes_of(alloc, tx, number)?;
    if !are_on(&rows, number) {
        return Err(ReadFault::Row);
    }
    Ok(rows)
}
