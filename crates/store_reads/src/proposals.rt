//! Proposals by their numbers, and their items.
ghost use Rattle.std.specs.Prelude.{◌≡◌, ◌==◌, filter, flat_map, map, true};
ghost use Rattle.store_schema.specs.rows.Values.{item_values};
ghost use Rattle.desk_history.specs.Items.{item_rows};
ghost use Rattle.store_reads.specs.ProposalColumns.{head_columns, head_of};
ghost use Rattle.store_reads.specs.Reads.{AreFound, ReadsTables, listed};
ghost use Rattle.store_sql.specs.States.{DoesInside, CommitsNothing, Spares, StaysInside};
ghost use Rattle.store_schema.specs.Tables as tables;

use crate::ReadFault;
use crate::proposal_columns::number_of;
use crate::proposal_head::ProposalHead;
use crate::reading::{row_of, rows_of};
use desk_history::ProposalItemRow;
use desk_types::ProposalNumber;
use sqlite::{Alter, Transaction, params};
use std::alloc::Global;
use store_schema::{SELECT_PROPOSAL, SELECT_PROPOSAL_ITEMS, SELECT_PROPOSALS};

/// The proposal of a number without its items, if there is one. Takes memory for the row.
pub fn head_numbered<S: Alter>(
    alloc: Global,
    tx: &mut Transaction<'_, S>,
    proposal: ProposalNumber,
) -> Result<Option<ProposalHead>, ReadFault>
    ensures same_reference { tx.new.conn.ghost_name ≡ tx.old.conn.ghost_name }
    ensures value { DoesInside S.Store tx.old.conn.now tx.new.conn.now result
        (λ head. ReadsTables (λ t. map head_of (filter (λ p. proposal == p.number) t.proposals)
        ≡ listed head)) }
    ensures inside { StaysInside S.Store tx.old.conn.now tx.new.conn.now result }
    ensures kept { CommitsNothing S.Store tx.old.conn.now tx.new.conn.now }
    ensures survives { Spares S.Store tx.old.conn.now tx.new.conn.now }
{
    let key = number_of(proposal);
    let head = row_of(alloc, tx, SELECT_PROPOSAL, params![&key])?;
    Ok(head)
}

/// All proposals without their items, by number. Takes memory for the rows.
pub fn heads_all<S: Alter>(
    alloc: Global,
    tx: &mut Transaction<'_, S>,
) -> Result<Vec<ProposalHead>, ReadFault>
    ensures same_reference { tx.new.conn.ghost_name ≡ tx.old.conn.ghost_name }
    ensures value { DoesInside S.Store tx.old.conn.now tx.new.conn.now result
        (λ heads. ReadsTables (λ t. AreFound head_columns tables.proposals 1 (λ h. true)
        (map head_of t.proposals) heads.items)) }
    ensures inside { StaysInside S.Store tx.old.conn.now tx.new.conn.now result }
    ensures kept { CommitsNothing S.Store tx.old.conn.now tx.new.conn.now }
    ensures survives { Spares S.Store tx.old.conn.now tx.new.conn.now }
{
    let heads = rows_of(alloc, tx, SELECT_PROPOSALS, &[])?;
    Ok(heads)
}

/// The items of a proposal, by place. Takes memory for the rows.
pub fn items_of<S: Alter>(
    alloc: Global,
    tx: &mut Transaction<'_, S>,
    proposal: ProposalNumber,
) -> Result<Vec<ProposalItemRow>, ReadFault>
    ensures same_reference { tx.new.conn.ghost_name ≡ tx.old.conn.ghost_name }
    ensures value { DoesInside S.Store tx.old.conn.now tx.new.conn.now result
        (λ rows. ReadsTables (λ t. AreFound item_values tables.proposal_items 2
        (λ r. proposal == r.proposal) (flat_map item_rows t.proposals) rows.items)) }
    ensures inside { StaysInside S.Store tx.old.conn.now tx.new.conn.now result }
    ensures kept { CommitsNothing S.Store tx.old.conn.now tx.new.conn.now }
    ensures survives { Spares S.Store tx.old.conn.now tx.new.conn.now }
{
    let key = number_of(proposal);
    let rows = rows_of(alloc, tx, SELECT_PROPOSAL_ITEMS, params![&key])?;
    Ok(rows)
}
