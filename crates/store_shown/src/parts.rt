//! The certificates, components, votes and file of a request.
ghost use Rattle.std.specs.Prelude.{◌≡◌};
ghost use Rattle.store_reads.specs.Reads.{ReadsTables};
ghost use Rattle.store_shown.specs.Steps.{ArePartsOf};
ghost use Rattle.store_sql.specs.States.{DoesInside, CommitsNothing, Spares, StaysInside};

use desk_history::{RequestCertificateRow, RequestComponentRow, ReturnRow, VoteRow};
use desk_types::RequestNumber;
use sqlite::{Alter, Transaction};
use std::alloc::Global;
use store_reads::{ReadFault, certificates_of, components_of, return_of, votes_of};

/// The rows that belong to a request.
#[derive(Drop)]
pub(crate) struct Parts {
    pub(crate) certificates: Vec<RequestCertificateRow>,
    pub(crate) components: Vec<RequestComponentRow>,
    pub(crate) votes: Vec<VoteRow>,
    pub(crate) returned: Option<ReturnRow>,
}

/// The rows that belong to the request of this number.
pub(crate) fn parts_of<S: Alter>(
    alloc: Global,
    tx: &mut Transaction<'_, S>,
    request: RequestNumber,
) -> Result<Parts, ReadFault>
    ensures same_reference { tx.new.conn.ghost_name ≡ tx.old.conn.ghost_name }
    ensures value { DoesInside S.Store tx.old.conn.now tx.new.conn.now result
        (λ parts. ReadsTables (λ t. ArePartsOf parts t request)) }
    ensures inside { StaysInside S.Store tx.old.conn.now tx.new.conn.now result }
    ensures kept { CommitsNothing S.Store tx.old.conn.now tx.new.conn.now }
    ensures survives { Spares S.Store tx.old.conn.now tx.new.conn.now }
{
    let certificates = certificates_of(alloc, tx, request)?;
    let components = components_of(alloc, tx, request)?;
    let votes = votes_of(alloc, tx, request)?;
    let returned = return_of(alloc, tx, request)?;
    Ok(Parts {
        certificates,
        components,
        votes,
        returned,
    })
}
