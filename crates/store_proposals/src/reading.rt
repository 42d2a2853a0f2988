//! A proposal with all of its items.
ghost use Rattle.std.specs.Prelude.{◌≡◌};
ghost use Rattle.store_reads.specs.Reads.{ReadsTables};
ghost use Rattle.store_sql.specs.States.{DoesInside, CommitsNothing, Spares, StaysInside};
ghost use Rattle.store_proposals.specs.Reading.{IsRead};

use crate::comparing::are_items;
use crate::naming::named_of;
use desk_history::ProposalRow;
use desk_types::ProposalNumber;
use sqlite::{Alter, Transaction};
use std::alloc::Global;
use store_reads::{ReadFault, head_numbered, items_of};

/// The proposal of a number, if there is one. Takes memory for its rows, twice for components.
///
/// `Row`: its rows aren't those that the desk writes.
pub fn proposal_of<S: Alter>(
    alloc: Global,
    tx: &mut Transaction<'_, S>,
    proposal: ProposalNumber,
) -> Result<Option<ProposalRow>, ReadFault>
    ensures same_reference { tx.new.conn.ghost_name ≡ tx.old.conn.ghost_name }
    ensures value { DoesInside S.Store tx.old.conn.now tx.new.conn.now result
        (λ found. ReadsTables (IsRead proposal found)) }
    ensures inside { StaysInside S.Store tx.old.conn.now tx.new.conn.now result }
    ensures kept { CommitsNothing S.Store tx.old.conn.now tx.new.conn.now }
    ensures survives { Spares S.Store tx.old.conn.now tx.new.conn.now }
{
    let Some(head) = head_numbered(alloc, tx, proposal)? else {
        return Ok(None);
    };
    let rows = items_of(alloc, tx, proposal)?;
    let named = named_of(alloc, &head, &rows)?;
    if !are_items(proposal, &named, &rows) {
        return Err(ReadFault::Row);
    }
    Ok(Some(ProposalRow {
        number: head.number,
        officer: head.officer,
        kind: head.kind,
        named,
        state: head.state,
    }))
}
