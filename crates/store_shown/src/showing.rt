//! Requests, as a person is shown them.
ghost use Rattle.std.specs.Prelude.{◌≡◌, bytes_eq, option_copied};
ghost use Rattle.desk_history.specs.Shown.{sees};
ghost use Rattle.store_reads.specs.Reads.{ReadsTables};
ghost use Rattle.store_shown.specs.Steps.{IsShownIn, visible_row};
ghost use Rattle.store_shown.specs.Telling.{RefusesAs, ShowsTo};
ghost use Rattle.store_sql.specs.States.{DoesInside, CommitsNothing, Spares, StaysInside};
ghost use Rattle.desk_exports.specs.declared.reading.Reading.TheVariants as read;

use crate::making::made_of;
use crate::parts::parts_of;
use crate::reader::reader_of;
use base::Refusal;
use desk_exports::{RequestList, Shown};
use desk_history::RequestRow;
use desk_types::{Person, RequestNumber, Role, ShownRequest};
use sqlite::{Alter, Transaction};
use std::alloc::Global;
use store_reads::{ReadFault, request_numbered};

/// The request of this row, with all that belongs to it.
pub(crate) fn shown_of<S: Alter>(
    alloc: Global,
    tx: &mut Transaction<'_, S>,
    row: RequestRow,
) -> Result<ShownRequest, ReadFault>
    ensures same_reference { tx.new.conn.ghost_name ≡ tx.old.conn.ghost_name }
    ensures value { DoesInside S.Store tx.old.conn.now tx.new.conn.now result
        (λ s. ReadsTables (λ t. IsShownIn t row s)) }
    ensures inside { StaysInside S.Store tx.old.conn.now tx.new.conn.now result }
    ensures kept { CommitsNothing S.Store tx.old.conn.now tx.new.conn.now }
    ensures survives { Spares S.Store tx.old.conn.now tx.new.conn.now }
{
    let parts = parts_of(alloc, tx, row.number)?;
    let shown = made_of(alloc, row, parts)?;
    Ok(shown)
}

/// Whether the person is shown the request of this row.
pub(crate) fn is_shown_to(reader: &Person, row: &RequestRow) -> bool
    ensures { result ≡ sees reader.now.role (bytes_eq reader.now.name row.now.submitter) }
{
    match reader.role {
        Role::Submitter => reader.name.as_str() == row.submitter.as_str(),
        Role::Reviewer | Role::Officer | Role::Signer => true,
    }
}

/// The row, if it is there and the person is shown its request.
fn row_for(reader: &Person, row: Option<RequestRow>) -> Option<RequestRow>
    ensures { result ≡ visible_row reader.now row }
{
    let Some(row) = row else {
        return None;
    };
    if !is_shown_to(reader, &row) {
        return None;
    }
    Some(row)
}

/// The request of this number, as the person of this name is shown it. The person isn't looked up
/// if that is `kept_person`, who must be one of the desk's people (`value`). Takes memory for its
/// rows.
///
/// `UnknownCaller`: nobody has the name. `NoSuchRequest`: no request has the number, or it belongs
/// to someone else and the person is a submitter; then none of its other rows is read.
pub(crate) fn request<S: Alter, L: RequestList + Drop>(
    alloc: Global,
    tx: &mut Transaction<'_, S>,
    kept_person: Option<&Person>,
    person: &Person,
    number: RequestNumber,
) -> Result<Result<Shown<L>, Refusal>, ReadFault>
    ensures same_reference { tx.new.conn.ghost_name ≡ tx.old.conn.ghost_name }
    ensures value { DoesInside S.Store tx.old.conn.now tx.new.conn.now result
        (λ given. ShowsTo L.RequestList.holds (option_copied kept_person.entry) person.now
        (read.Request number) given) }
    ensures named { RefusesAs (read.Request number) result }
    ensures inside { StaysInside S.Store tx.old.conn.now tx.new.conn.now result }
    ensures kept { CommitsNothing S.Store tx.old.conn.now tx.new.conn.now }
    ensures survives { Spares S.Store tx.old.conn.now tx.new.conn.now }
{
    let found = reader_of(alloc, tx, kept_person, &person.name)?;
    let Some(reader) = found else {
        return Ok(Err(Refusal::UnknownCaller));
    };
    let asked = request_numbered(alloc, tx, number)?;
    let Some(row) = row_for(&reader, asked) else {
        return Ok(Err(Refusal::NoSuchRequest));
    };
    let shown = shown_of(alloc, tx, row)?;
    Ok(Ok(Shown::Request(shown)))
}
