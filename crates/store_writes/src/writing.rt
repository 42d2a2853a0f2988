//! The writes of a decision, one or all.
ghost use Rattle.std.specs.Prelude.{◌≡◌};
ghost use Rattle.desk_history.specs.Writes.{all_written, written};
ghost use Rattle.store_sql.specs.States.{CommitsNothing, Spares, StaysInside};
ghost use Rattle.store_writes.specs.Steps.{Steps};

use crate::entering::{put_call, put_component, put_person};
use crate::listing::{put_entry, revoke, unlist};
use crate::proposing::put_proposal;
use crate::requesting::{
    put_request, put_request_certificate, put_request_component, put_return, put_vote,
};
use crate::setting::{set_generation, set_proposal_state, set_stamp, set_state};
use desk_history::Write;
use sqlite::{Alter, Transaction};
use std::alloc::Global;
use store_sql::StoreFault;

/// Makes one write. Takes memory for a reply's text.
fn write<S: Alter>(
    alloc: Global,
    tx: &mut Transaction<'_, S>,
    row: &Write,
) -> Result<(), StoreFault>
    ensures same_reference { tx.new.conn.ghost_name ≡ tx.old.conn.ghost_name }
    ensures value { Steps S.Store tx.old.conn.now tx.new.conn.now result
        (written row.now) }
    ensures inside { StaysInside S.Store tx.old.conn.now tx.new.conn.now result }
    ensures kept { CommitsNothing S.Store tx.old.conn.now tx.new.conn.now }
    ensures survives { Spares S.Store tx.old.conn.now tx.new.conn.now }
{
    match row {
        Write::Person(person) => put_person(tx, person),
        Write::Call(minute) => put_call(alloc, tx, minute),
        Write::Request(request) => put_request(tx, request),
        Write::RequestCertificate(certificate) => put_request_certificate(tx, certificate),
        Write::RequestComponent(component) => put_request_component(tx, component),
        Write::Vote(vote) => put_vote(tx, vote),
        Write::State(outcome) => set_state(tx, outcome),
        Write::Return(returned) => put_return(tx, returned),
        Write::List(entry) => put_entry(tx, entry),
        Write::Unlist(listing) => unlist(tx, listing),
        Write::Revoke(listing) => revoke(tx, listing),
        Write::Component(component) => put_component(tx, component),
        Write::Generation(component) => set_generation(tx, component),
        Write::Stamp(stamp) => set_stamp(tx, *stamp),
        Write::Propose(proposal) => put_proposal(tx, proposal),
        Write::ProposalState(outcome) => set_proposal_state(tx, outcome),
    }
}

/// Makes the writes, one after another, up to the first that fails. Takes memory for a reply's
/// text.
///
/// `NoMemory`: memory was refused. `Store`: the store failed, or a number is above 2^63 - 1.
pub fn write_all<S: Alter>(
    alloc: Global,
    tx: &mut Transaction<'_, S>,
    rows: &[Write],
) -> Result<(), StoreFault>
    ensures same_reference { tx.new.conn.ghost_name ≡ tx.old.conn.ghost_name }
    ensures value { Steps S.Store tx.old.conn.now tx.new.conn.now result
        (all_written rows.now) }
    ensures kept { CommitsNothing S.Store tx.old.conn.now tx.new.conn.now }
    ensures survives { Spares S.Store tx.old.conn.now tx.new.conn.now }
{
    for row in rows {
        write(alloc, tx, row)?;
    }
    Ok(())
}
