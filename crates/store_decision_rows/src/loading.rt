//! The rows that a call names, except those of the lists.
ghost use Rattle.std.specs.Prelude.{◌≡◌, ℕ, All, IfOk, IsSome, IsTrue, Some, find, option_copied};
ghost use Rattle.desk_history.specs.Formed.{IsReadable};
ghost use Rattle.desk_history.specs.Runs.{has_key};
ghost use Rattle.store_reads.specs.People.{IsOneOf};
ghost use Rattle.store_reads.specs.Reads.{ReadsTables};
ghost use Rattle.desk_types.specs.Naming as spec;
ghost use Rattle.desk_rules.specs.Shown.{is_proposal_row};
ghost use Rattle.store_sql.specs.States.{DoesInside, CommitsNothing, Spares, StaysInside};
ghost use Rattle.desk_types.specs.Callers.{caller_name};
ghost use Rattle.store_decision_rows.specs.Named.{is_named_person};
ghost use Rattle.store_proposals.specs.Reading.{IsStamped};
ghost use Rattle.store_decision_rows.specs.Steps.{HoldsNamed, ReadsBack, ShowsNamed, ShowsPeople};
ghost use Rattle.store_decision_rows.specs.Steps.{ShowsProposal, ShowsRequest, ShowsVotes};

use crate::keyed;
use crate::pushing::push_some;
use desk_history::{Minute, ProposalRow, RequestRow, VoteRow};
use desk_rules::CallRef;
use desk_types::{Caller, Command, Key, Person, ProposalNumber};
use sqlite::{Alter, Transaction};
use std::alloc::Global;
use store_reads::ReadFault;

/// The rows that a call names, except those of the lists.
#[derive(Drop)]
pub(crate) struct CallRows {
    pub(crate) people: Vec<Person>,
    pub(crate) calls: Vec<Minute>,
    pub(crate) requests: Vec<RequestRow>,
    pub(crate) votes: Vec<VoteRow>,
    pub(crate) proposals: Vec<ProposalRow>,
}

/// The row of the proposal of this number.
fn row_numbered(proposals: &[ProposalRow], number: ProposalNumber) -> Option<&ProposalRow>
    ensures { option_copied result ≡ find (is_proposal_row number) proposals.now }
{
    proposals
        .iter()
        .find(|row| number.value() == row.number.value())
}

/// The row of the proposal that the command names.
pub(crate) fn named_row<'a>(
    proposals: &'a [ProposalRow],
    command: &Command,
) -> Option<&'a ProposalRow>
    ensures { (k : ℕ) → spec.proposal_named command.now ≡ Some k → option_copied result
        ≡ find (is_proposal_row k) proposals.now }
{
    match command.proposal_named() {
        None => None,
        Some(number) => row_numbered(proposals, number),
    }
}

/// The people whom the call names: the caller, who isn't read if that is the remembered person, and
/// those who have the name or the token of a person whom the command adds.
fn people_of<S: Alter>(
    alloc: Global,
    tx: &mut Transaction<'_, S>,
    remembered_person: Option<&Person>,
    caller: &Caller,
    command: &Command,
) -> Result<Vec<Person>, ReadFault>
    ensures same_reference { tx.new.conn.ghost_name ≡ tx.old.conn.ghost_name }
    ensures value { DoesInside S.Store tx.old.conn.now tx.new.conn.now result
        (λ people. ReadsTables (λ t. IsOneOf (option_copied remembered_person.entry) t.people
        → ShowsPeople people.items t (caller_name caller.now) command.now)) }
    ensures only { IfOk result (λ people.
        All (λ p. IsTrue (is_named_person (caller_name caller.now) command.now p)) people.items) }
    ensures kept { CommitsNothing S.Store tx.old.conn.now tx.new.conn.now }
    ensures survives { Spares S.Store tx.old.conn.now tx.new.conn.now }
{
    let own = keyed::caller(alloc, tx, remembered_person, caller.name())?;
    let mut people = Vec::new(alloc);
    push_some(&mut people, own)?;
    let Some(person) = command.person_added() else {
        return Ok(people);
    };
    let namesake = keyed::person(alloc, tx, person.name.as_str())?;
    push_some(&mut people, namesake)?;
    let holder = keyed::holder(alloc, tx, &person.token)?;
    push_some(&mut people, holder)?;
    Ok(people)
}

/// The caller's call with the key.
fn calls_of<S: Alter>(
    alloc: Global,
    tx: &mut Transaction<'_, S>,
    caller: &Caller,
    key: &Key,
) -> Result<Vec<Minute>, ReadFault>
    ensures same_reference { tx.new.conn.ghost_name ≡ tx.old.conn.ghost_name }
    ensures value { DoesInside S.Store tx.old.conn.now tx.new.conn.now result
        (λ calls. ReadsTables (λ t. All IsReadable t.calls
        → find (has_key (caller_name caller.now) key.now) calls.items
        ≡ find (has_key (caller_name caller.now) key.now) t.calls)) }
    ensures only { IfOk result (λ calls.
        All (λ m. IsTrue (has_key (caller_name caller.now) key.now m)) calls.items) }
    ensures inside { StaysInside S.Store tx.old.conn.now tx.new.conn.now result }
    ensures kept { CommitsNothing S.Store tx.old.conn.now tx.new.conn.now }
    ensures survives { Spares S.Store tx.old.conn.now tx.new.conn.now }
{
    let earlier = keyed::earlier_call(alloc, tx, caller.name(), key)?;
    let mut calls = Vec::new(alloc);
    push_some(&mut calls, earlier)?;
    Ok(calls)
}

/// The request that the command names.
fn requests_of<S: Alter>(
    alloc: Global,
    tx: &mut Transaction<'_, S>,
    command: &Command,
) -> Result<Vec<RequestRow>, ReadFault>
    ensures same_reference { tx.new.conn.ghost_name ≡ tx.old.conn.ghost_name }
    ensures value { DoesInside S.Store tx.old.conn.now tx.new.conn.now result
        (λ rows. ReadsTables (λ t. ShowsRequest rows.items t (spec.request_named command.now))) }
    ensures only { IfOk result (λ rows.
        All (λ r. spec.request_named command.now ≡ Some r.number) rows.items) }
    ensures kept { CommitsNothing S.Store tx.old.conn.now tx.new.conn.now }
    ensures survives { Spares S.Store tx.old.conn.now tx.new.conn.now }
{
    let mut rows = Vec::new(alloc);
    let Some(number) = command.request_named() else {
        return Ok(rows);
    };
    let row = keyed::request(alloc, tx, number)?;
    push_some(&mut rows, row)?;
    Ok(rows)
}

/// The votes on the request that the command names.
fn votes_of<S: Alter>(
    alloc: Global,
    tx: &mut Transaction<'_, S>,
    command: &Command,
) -> Result<Vec<VoteRow>, ReadFault>
    ensures same_reference { tx.new.conn.ghost_name ≡ tx.old.conn.ghost_name }
    ensures value { DoesInside S.Store tx.old.conn.now tx.new.conn.now result
        (λ rows. ReadsTables (λ t. ShowsVotes rows.items t (spec.request_named command.now))) }
    ensures only { IfOk result (λ rows.
        All (λ v. spec.request_named command.now ≡ Some v.request) rows.items) }
    ensures kept { CommitsNothing S.Store tx.old.conn.now tx.new.conn.now }
    ensures survives { Spares S.Store tx.old.conn.now tx.new.conn.now }
{
    let Some(number) = command.request_named() else {
        return Ok(Vec::new(alloc));
    };
    let rows = keyed::votes(alloc, tx, number)?;
    Ok(rows)
}

/// The proposal that the command names.
pub(crate) fn proposals_of<S: Alter>(
    alloc: Global,
    tx: &mut Transaction<'_, S>,
    command: &Command,
) -> Result<Vec<ProposalRow>, ReadFault>
    ensures same_reference { tx.new.conn.ghost_name ≡ tx.old.conn.ghost_name }
    ensures value { DoesInside S.Store tx.old.conn.now tx.new.conn.now result
        (λ rows. ReadsTables (λ t. All IsStamped t.proposals
        → ShowsProposal rows.items t (spec.proposal_named command.now))) }
    ensures only { IfOk result (λ rows.
        All (λ r. spec.proposal_named command.now ≡ Some r.number) rows.items) }
    ensures inside { IsSome (spec.proposal_named command.now)
        → StaysInside S.Store tx.old.conn.now tx.new.conn.now result }
    ensures kept { CommitsNothing S.Store tx.old.conn.now tx.new.conn.now }
    ensures survives { Spares S.Store tx.old.conn.now tx.new.conn.now }
{
    let mut rows = Vec::new(alloc);
    let Some(number) = command.proposal_named() else {
        return Ok(rows);
    };
    let row = keyed::proposal(alloc, tx, number)?;
    push_some(&mut rows, row)?;
    Ok(rows)
}

/// The rows that the call names, except those of the lists.
pub(crate) fn rows_of_call<S: Alter>(
    alloc: Global,
    tx: &mut Transaction<'_, S>,
    remembered_person: Option<&Person>,
    call: &CallRef<'_>,
) -> Result<CallRows, ReadFault>
    ensures same_reference { tx.new.conn.ghost_name ≡ tx.old.conn.ghost_name }
    ensures value { DoesInside S.Store tx.old.conn.now tx.new.conn.now result
        (λ rows. ReadsTables (λ t. ReadsBack t
        → IsOneOf (option_copied remembered_person.entry) t.people
        → ShowsNamed rows t call.now)) }
    ensures only { IfOk result (λ rows. HoldsNamed rows call.now) }
    ensures inside { StaysInside S.Store tx.old.conn.now tx.new.conn.now result }
    ensures kept { CommitsNothing S.Store tx.old.conn.now tx.new.conn.now }
    ensures survives { Spares S.Store tx.old.conn.now tx.new.conn.now }
{
    let people = people_of(alloc, tx, remembered_person, call.caller, call.command)?;
    let calls = calls_of(alloc, tx, call.caller, call.key)?;
    let requests = requests_of(alloc, tx, call.command)?;
    let votes = votes_of(alloc, tx, call.command)?;
    let proposals = proposals_of(alloc, tx, call.command)?;
    Ok(CallRows {
        people,
        calls,
        requests,
        votes,
        proposals,
    })
}
