//! Proposals by their numbers, one after another.
ghost use Rattle.std.specs.Prelude.{◌≡◌, ◌≤◌, option_copied};
ghost use Rattle.desk_history.specs.Refusals.{is_closed};
ghost use Rattle.store_reads.specs.Reads.{ReadsTables};
ghost use Rattle.store_sql.specs.States.{DoesInside, CommitsNothing, Spares};
ghost use Rattle.store_proposals.specs.Numbered.{ListsUpTo, TakesNumbered, picks_head};

use crate::listing::shown_of;
use desk_types::{PersonName, Proposal, ProposalNumber, ProposalState};
use sqlite::{Alter, Transaction};
use std::alloc::Global;
use store_reads::{ProposalHead, ReadFault, head_numbered};

/// Whether a proposal in this state is closed.
fn is_closed(state: ProposalState) -> bool
    ensures { result ≡ is_closed state }
{
    match state {
        ProposalState::Open => false,
        ProposalState::Confirmed | ProposalState::Dropped => true,
    }
}

/// Whether the proposal of this head waits for the officer of this name; any does without a name.
fn picks_head(officer: Option<&PersonName>, head: &ProposalHead) -> bool
    ensures { result ≡ picks_head (option_copied officer.entry) head.now }
{
    let Some(name) = officer else {
        return true;
    };
    if is_closed(head.state) {
        return false;
    }
    name.as_str() != head.officer.as_str()
}

/// Adds the proposal of this number to the list, if it is chosen, and says whether it was. Its
/// items are read only then, and only of an import.
///
/// `Row`: no proposal has the number, or its rows aren't those that the desk writes.
fn take_numbered<S: Alter>(
    alloc: Global,
    tx: &mut Transaction<'_, S>,
    officer: Option<&PersonName>,
    number: u64,
    list: &mut Vec<Proposal>,
) -> Result<bool, ReadFault>
    ensures same_reference { tx.new.conn.ghost_name ≡ tx.old.conn.ghost_name }
    ensures value { DoesInside S.Store tx.old.conn.now tx.new.conn.now result
        (λ is_taken. ReadsTables (λ t. TakesNumbered (option_copied officer.entry) t number
        list.old.items list.new.items is_taken)) }
    ensures kept { CommitsNothing S.Store tx.old.conn.now tx.new.conn.now }
    ensures survives { Spares S.Store tx.old.conn.now tx.new.conn.now }
{
    let Some(number) = ProposalNumber::new(number) else {
        return Err(ReadFault::Row);
    };
    let Some(head) = head_numbered(alloc, tx, number)? else {
        return Err(ReadFault::Row);
    };
    if !picks_head(officer, &head) {
        return Ok(false);
    }
    let shown = shown_of(alloc, tx, head)?;
    if list.push(shown).is_err() {
        return Err(ReadFault::NoMemory);
    }
    Ok(true)
}

/// The proposals with a number above `passed` and up to `last`, by number, the first so many of
/// them: all, or those that wait for the officer of this name. Each is read by its number, with the
/// counts of its items. Takes memory for what is given, and for all items of one import at a time.
///
/// `Row`: a number has no proposal, or their rows aren't those that the desk writes.
pub fn proposals_after<S: Alter>(
    alloc: Global,
    tx: &mut Transaction<'_, S>,
    officer: Option<&PersonName>,
    passed: u64,
    last: u64,
    most: u64,
) -> Result<Vec<Proposal>, ReadFault>
    requires { passed ≤ last }
    ensures same_reference { tx.new.conn.ghost_name ≡ tx.old.conn.ghost_name }
    ensures value { DoesInside S.Store tx.old.conn.now tx.new.conn.now result
        (λ list. ReadsTables (λ t. ListsUpTo (option_copied officer.entry) t passed last most
        list.items)) }
    ensures kept { CommitsNothing S.Store tx.old.conn.now tx.new.conn.now }
    ensures survives { Spares S.Store tx.old.conn.now tx.new.conn.now }
{
    let mut list = Vec::new(alloc);
    let mut number = passed;
    let mut many = 0;
    while number < last {
        if many == most {
            return Ok(list);
        }
        number += 1;
        let is_taken = take_numbered(alloc, tx, officer, number, &mut list)?;
        many += u64::from(is_taken);
    }
    Ok(list)
}
