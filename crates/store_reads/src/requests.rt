//! Requests by their numbers, and their certificates, components, votes and files.
ghost use Rattle.std.specs.Prelude.{◌≡◌, ◌==◌, filter};
ghost use Rattle.store_schema.specs.rows.Values.{request_certificate_values, request_component_values, vote_values};
ghost use Rattle.store_reads.specs.Reads.{AreFound, ReadsTables, listed};
ghost use Rattle.store_sql.specs.States.{DoesInside, CommitsNothing, Spares, StaysInside};
ghost use Rattle.store_schema.specs.Tables as tables;

use crate::ReadFault;
use crate::columns::key_of;
use crate::reading::{row_of, rows_of};
use desk_history::{RequestCertificateRow, RequestComponentRow, RequestRow, ReturnRow, VoteRow};
use desk_types::RequestNumber;
use sqlite::{Alter, Transaction, params};
use std::alloc::Global;
use store_schema::{
    SELECT_REQUEST, SELECT_REQUEST_CERTIFICATES, SELECT_REQUEST_COMPONENTS, SELECT_RETURN,
    SELECT_VOTES,
};

/// The request of a number, if there is one. Takes memory for the row.
pub fn request_numbered<S: Alter>(
    alloc: Global,
    tx: &mut Transaction<'_, S>,
    request: RequestNumber,
) -> Result<Option<RequestRow>, ReadFault>
    ensures same_reference { tx.new.conn.ghost_name ≡ tx.old.conn.ghost_name }
    ensures value { DoesInside S.Store tx.old.conn.now tx.new.conn.now result
        (λ row. ReadsTables (λ t. filter (λ r. request == r.number) t.requests ≡ listed row)) }
    ensures inside { StaysInside S.Store tx.old.conn.now tx.new.conn.now result }
    ensures kept { CommitsNothing S.Store tx.old.conn.now tx.new.conn.now }
    ensures survives { Spares S.Store tx.old.conn.now tx.new.conn.now }
{
    let no = key_of(request);
    let row = row_of(alloc, tx, SELECT_REQUEST, params![&no])?;
    Ok(row)
}

/// The certificates of a request's image, by digest. Takes memory for the rows.
pub fn certificates_of<S: Alter>(
    alloc: Global,
    tx: &mut Transaction<'_, S>,
    request: RequestNumber,
) -> Result<Vec<RequestCertificateRow>, ReadFault>
    ensures same_reference { tx.new.conn.ghost_name ≡ tx.old.conn.ghost_name }
    ensures value { DoesInside S.Store tx.old.conn.now tx.new.conn.now result
        (λ rows. ReadsTables (λ t. AreFound request_certificate_values tables.request_certificates 2
        (λ r. request == r.request) t.request_certificates rows.items)) }
    ensures inside { StaysInside S.Store tx.old.conn.now tx.new.conn.now result }
    ensures kept { CommitsNothing S.Store tx.old.conn.now tx.new.conn.now }
    ensures survives { Spares S.Store tx.old.conn.now tx.new.conn.now }
{
    let key = key_of(request);
    let rows = rows_of(alloc, tx, SELECT_REQUEST_CERTIFICATES, params![&key])?;
    Ok(rows)
}

/// The components of a request's image, by place. Takes memory for the rows.
pub fn components_of<S: Alter>(
    alloc: Global,
    tx: &mut Transaction<'_, S>,
    request: RequestNumber,
) -> Result<Vec<RequestComponentRow>, ReadFault>
    ensures same_reference { tx.new.conn.ghost_name ≡ tx.old.conn.ghost_name }
    ensures value { DoesInside S.Store tx.old.conn.now tx.new.conn.now result
        (λ rows. ReadsTables (λ t. AreFound request_component_values tables.request_components 2
        (λ r. request == r.request) t.request_components rows.items)) }
    ensures inside { StaysInside S.Store tx.old.conn.now tx.new.conn.now result }
    ensures kept { CommitsNothing S.Store tx.old.conn.now tx.new.conn.now }
    ensures survives { Spares S.Store tx.old.conn.now tx.new.conn.now }
{
    let key = key_of(request);
    let rows = rows_of(alloc, tx, SELECT_REQUEST_COMPONENTS, params![&key])?;
    Ok(rows)
}

/// The votes on a request, by reviewer. Takes memory for the rows.
pub fn votes_of<S: Alter>(
    alloc: Global,
    tx: &mut Transaction<'_, S>,
    request: RequestNumber,
) -> Result<Vec<VoteRow>, ReadFault>
    ensures same_reference { tx.new.conn.ghost_name ≡ tx.old.conn.ghost_name }
    ensures value { DoesInside S.Store tx.old.conn.now tx.new.conn.now result
        (λ rows. ReadsTables (λ t. AreFound vote_values tables.votes 2
        (λ v. request == v.request) t.votes rows.items)) }
    ensures inside { StaysInside S.Store tx.old.conn.now tx.new.conn.now result }
    ensures kept { CommitsNothing S.Store tx.old.conn.now tx.new.conn.now }
    ensures survives { Spares S.Store tx.old.conn.now tx.new.conn.now }
{
    let key = key_of(request);
    let rows = rows_of(alloc, tx, SELECT_VOTES, params![&key])?;
    Ok(rows)
}

/// The file that was returned for a request, if one was. Takes memory for the row.
pub fn return_of<S: Alter>(
    alloc: Global,
    tx: &mut Transaction<'_, S>,
    request: RequestNumber,
) -> Result<Option<ReturnRow>, ReadFault>
    ensures same_reference { tx.new.conn.ghost_name ≡ tx.old.conn.ghost_name }
    ensures value { DoesInside S.Store tx.old.conn.now tx.new.conn.now result
        (λ row. ReadsTables (λ t. filter (λ r. request == r.request) t.returns ≡ listed row)) }
    ensures inside { StaysInside S.Store tx.old.conn.now tx.new.conn.now result }
    ensures kept { CommitsNothing S.Store tx.old.conn.now tx.new.conn.now }
    ensures survives { Spares S.Store tx.old.conn.now tx.new.conn.now }
{
    let key = key_of(request);
    let row = row_of(alloc, tx, SELECT_RETURN, params![&key])?;
    Ok(row)
}
