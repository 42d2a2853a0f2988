//! Requests and their certificates, components, votes and files: rows that are inserted.
ghost use Rattle.std.specs.Prelude.{◌≡◌};
ghost use Rattle.desk_history.specs.Writes.{written};
ghost use Rattle.desk_history.specs.declared.write.Write.TheVariants as writes;
ghost use Rattle.store_sql.specs.States.{CommitsNothing, Spares, StaysInside};
ghost use Rattle.store_writes.specs.Steps.{Steps};

use crate::stored::integer_value;
use desk_history::{RequestCertificateRow, RequestComponentRow, RequestRow, ReturnRow, VoteRow};
use sqlite::{Alter, Transaction, params};
use store_schema::{
    INSERT_REQUEST, INSERT_REQUEST_CERTIFICATE, INSERT_REQUEST_COMPONENT, INSERT_RETURN,
    INSERT_VOTE,
};
use store_sql::{StoreFault, insert};

/// Inserts a request.
pub(crate) fn put_request<S: Alter>(
    tx: &mut Transaction<'_, S>,
    request: &RequestRow,
) -> Result<(), StoreFault>
    ensures same_reference { tx.new.conn.ghost_name ≡ tx.old.conn.ghost_name }
    ensures value { Steps S.Store tx.old.conn.now tx.new.conn.now result
        (written (writes.Request request.now)) }
    ensures inside { StaysInside S.Store tx.old.conn.now tx.new.conn.now result }
    ensures kept { CommitsNothing S.Store tx.old.conn.now tx.new.conn.now }
    ensures survives { Spares S.Store tx.old.conn.now tx.new.conn.now }
{
    let number = integer_value(request.number.value())?;
    let length = integer_value(request.length)?;
    let gap = integer_value(request.gap)?;
    insert(
        tx,
        INSERT_REQUEST,
        params![
            &number,
            request.submitter.as_str(),
            request.title.as_str(),
            &length,
            &gap,
            request.file.as_bytes(),
            request.digest.as_bytes(),
            request.signing.as_bytes(),
            request.state.text()
        ],
    )?;
    Ok(())
}

/// Inserts a certificate of a request's image.
pub(crate) fn put_request_certificate<S: Alter>(
    tx: &mut Transaction<'_, S>,
    certificate: &RequestCertificateRow,
) -> Result<(), StoreFault>
    ensures same_reference { tx.new.conn.ghost_name ≡ tx.old.conn.ghost_name }
    ensures value { Steps S.Store tx.old.conn.now tx.new.conn.now result
        (written (writes.RequestCertificate certificate.now)) }
    ensures inside { StaysInside S.Store tx.old.conn.now tx.new.conn.now result }
    ensures kept { CommitsNothing S.Store tx.old.conn.now tx.new.conn.now }
    ensures survives { Spares S.Store tx.old.conn.now tx.new.conn.now }
{
    let request = integer_value(certificate.request.value())?;
    insert(
        tx,
        INSERT_REQUEST_CERTIFICATE,
        params![&request, certificate.digest.as_bytes()],
    )?;
    Ok(())
}

/// Inserts a component of a request's image.
pub(crate) fn put_request_component<S: Alter>(
    tx: &mut Transaction<'_, S>,
    component: &RequestComponentRow,
) -> Result<(), StoreFault>
    ensures same_reference { tx.new.conn.ghost_name ≡ tx.old.conn.ghost_name }
    ensures value { Steps S.Store tx.old.conn.now tx.new.conn.now result
        (written (writes.RequestComponent component.now)) }
    ensures inside { StaysInside S.Store tx.old.conn.now tx.new.conn.now result }
    ensures kept { CommitsNothing S.Store tx.old.conn.now tx.new.conn.now }
    ensures survives { Spares S.Store tx.old.conn.now tx.new.conn.now }
{
    let request = integer_value(component.request.value())?;
    let place = integer_value(component.place)?;
    insert(
        tx,
        INSERT_REQUEST_COMPONENT,
        params![
            &request,
            &place,
            component.name.as_str(),
            component.generation.value()
        ],
    )?;
    Ok(())
}

/// Inserts a vote.
pub(crate) fn put_vote<S: Alter>(
    tx: &mut Transaction<'_, S>,
    vote: &VoteRow,
) -> Result<(), StoreFault>
    ensures same_reference { tx.new.conn.ghost_name ≡ tx.old.conn.ghost_name }
    ensures value { Steps S.Store tx.old.conn.now tx.new.conn.now result
        (written (writes.Vote vote.now)) }
    ensures inside { StaysInside S.Store tx.old.conn.now tx.new.conn.now result }
    ensures kept { CommitsNothing S.Store tx.old.conn.now tx.new.conn.now }
    ensures survives { Spares S.Store tx.old.conn.now tx.new.conn.now }
{
    let request = integer_value(vote.request.value())?;
    insert(
        tx,
        INSERT_VOTE,
        params![
            &request,
            vote.reviewer.as_str(),
            vote.vote.text(),
            vote.note.as_str()
        ],
    )?;
    Ok(())
}

/// Inserts a returned file.
pub(crate) fn put_return<S: Alter>(
    tx: &mut Transaction<'_, S>,
    returned: &ReturnRow,
) -> Result<(), StoreFault>
    ensures same_reference { tx.new.conn.ghost_name ≡ tx.old.conn.ghost_name }
    ensures value { Steps S.Store tx.old.conn.now tx.new.conn.now result
        (written (writes.Return returned.now)) }
    ensures inside { StaysInside S.Store tx.old.conn.now tx.new.conn.now result }
    ensures kept { CommitsNothing S.Store tx.old.conn.now tx.new.conn.now }
    ensures survives { Spares S.Store tx.old.conn.now tx.new.conn.now }
{
    let request = integer_value(returned.request.value())?;
    let length = integer_value(returned.length)?;
    insert(
        tx,
        INSERT_RETURN,
        params![
            &request,
            returned.signer.as_str(),
            &length,
            returned.file.as_bytes(),
            returned.digest.as_bytes()
        ],
    )?;
    Ok(())
}
