//! Rows of requests, or their numbers alone; of their certificates, components, votes and files.
ghost use Rattle.store_schema.specs.rows.Values.{request_certificate_values, request_component_values, vote_values};
ghost use Rattle.store_reads.specs.Answers.{request_columns, return_columns};
ghost use Rattle.store_reads.specs.Numbers.{number_values};

use crate::ReadFault;
use crate::columns::{
    column_of, component_name_at, digest_at, generation_at, name_at, note_at, request_at, state_at,
    title_at, vote_at,
};
use crate::from_row::FromRow;
use desk_history::{RequestCertificateRow, RequestComponentRow, RequestRow, ReturnRow, VoteRow};
use desk_types::RequestNumber;
use sqlite::Row;
use std::alloc::Global;

impl FromRow for RequestRow {
    ghost shown = { request_columns };

    fn from_row(alloc: Global, row: &Row) -> Result<RequestRow, ReadFault> {
        if row.column_count() != 9 {
            return Err(ReadFault::Row);
        }
        let number = request_at(row, 0)?;
        let submitter = name_at(alloc, row, 1)?;
        let title = title_at(alloc, row, 2)?;
        let length = column_of(row, 3)?;
        let gap = column_of(row, 4)?;
        let file = digest_at(row, 5)?;
        let digest = digest_at(row, 6)?;
        let signing = digest_at(row, 7)?;
        let state = state_at(row, 8)?;
        Ok(RequestRow {
            number,
            submitter,
            title,
            length,
            gap,
            file,
            digest,
            signing,
            state,
        })
    }
}

impl FromRow for RequestNumber {
    ghost shown = { number_values };

    fn from_row(_alloc: Global, row: &Row) -> Result<RequestNumber, ReadFault> {
        if row.column_count() != 1 {
            return Err(ReadFault::Row);
        }
        let number = request_at(row, 0)?;
        Ok(number)
    }
}

impl FromRow for RequestCertificateRow {
    ghost shown = { request_certificate_values };

    fn from_row(_alloc: Global, row: &Row) -> Result<RequestCertificateRow, ReadFault> {
        if row.column_count() != 2 {
            return Err(ReadFault::Row);
        }
        let request = request_at(row, 0)?;
        let digest = digest_at(row, 1)?;
        Ok(RequestCertificateRow { request, digest })
    }
}

impl FromRow for RequestComponentRow {
    ghost shown = { request_component_values };

    fn from_row(alloc: Global, row: &Row) -> Result<RequestComponentRow, ReadFault> {
        if row.column_count() != 4 {
            return Err(ReadFault::Row);
        }
        let request = request_at(row, 0)?;
        let place = column_of(row, 1)?;
        let name = component_name_at(alloc, row, 2)?;
        let generation = generation_at(row, 3)?;
        Ok(RequestComponentRow {
            request,
            place,
            name,
            generation,
        })
    }
}

impl FromRow for VoteRow {
    ghost shown = { vote_values };

    fn from_row(alloc: Global, row: &Row) -> Result<VoteRow, ReadFault> {
        if row.column_count() != 4 {
            return Err(ReadFault::Row);
        }
        let request = request_at(row, 0)?;
        let reviewer = name_at(alloc, row, 1)?;
        let vote = vote_at(row, 2)?;
        let note = note_at(alloc, row, 3)?;
        Ok(VoteRow {
            request,
            reviewer,
            vote,
            note,
        })
    }
}

impl FromRow for ReturnRow {
    ghost shown = { return_columns };

    fn from_row(alloc: Global, row: &Row) -> Result<ReturnRow, ReadFault> {
        if row.column_count() != 5 {
            return Err(ReadFault::Row);
        }
        let request = request_at(row, 0)?;
        let signer = name_at(alloc, row, 1)?;
        let length = column_of(row, 2)?;
        let file = digest_at(row, 3)?;
        let digest = digest_at(row, 4)?;
        Ok(ReturnRow {
            request,
            signer,
            length,
            file,
            digest,
        })
    }
}
