//! Proposals without their items.
ghost use Rattle.store_reads.specs.ProposalColumns.{head_columns};

use crate::ReadFault;
use crate::columns::{column_of, name_at};
use crate::from_row::FromRow;
use crate::proposal_columns::{proposal_at, proposal_kind_at, proposal_state_at};
use desk_types::{PersonName, ProposalKind, ProposalNumber, ProposalState};
use sqlite::Row;
use std::alloc::Global;

/// A proposal without its items. `stamp` is the stamp of its level, or 0 if it has none.
#[derive(Debug, Drop)]
pub struct ProposalHead {
    pub number: ProposalNumber,
    pub officer: PersonName,
    pub kind: ProposalKind,
    pub stamp: u64,
    pub passed: u64,
    pub state: ProposalState,
}

impl FromRow for ProposalHead {
    ghost shown = { head_columns };

    fn from_row(alloc: Global, row: &Row) -> Result<ProposalHead, ReadFault> {
        if row.column_count() != 6 {
            return Err(ReadFault::Row);
        }
        let number = proposal_at(row, 0)?;
        let officer = name_at(alloc, row, 1)?;
        let kind = proposal_kind_at(row, 2)?;
        let stamp = column_of(row, 3)?;
        let passed = column_of(row, 4)?;
        let state = proposal_state_at(row, 5)?;
        Ok(ProposalHead {
            number,
            officer,
            kind,
            stamp,
            passed,
            state,
        })
    }
}
