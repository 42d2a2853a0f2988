//! The rows of the lists that commands of one kind name, or an image's facts.
ghost use Rattle.std.specs.Prelude.{◌≡◌, IfErr, IfOk};
ghost use Rattle.base.specs.Digests.{IsArranged};
ghost use Rattle.store_decision_rows.specs.lists.Gathering.{barring_keys, entry_keys, import_keys};
ghost use Rattle.store_decision_rows.specs.lists.Gathering.{listed_keys, revoked_keys, submission_keys};
ghost use Rattle.store_decision_rows.specs.lists.Lists.{HoldsNoOther};
ghost use Rattle.store_reads.specs.Reads.{ReadsTables};
ghost use Rattle.desk_rules.specs.Views.{ShowsLists, keys_of};
ghost use Rattle.store_sql.specs.States.{DoesInside, CommitsNothing, Spares, StaysInside};

use crate::lists::keys::Digests;
use crate::lists::reading::rows_of;
use base::{Digest, arrange};
use desk_rules::ListView;
use desk_types::{Facts, Import, ListedKind};
use sbat::Component;
use sqlite::{Alter, Transaction};
use std::alloc::Global;
use std::slice;
use store_reads::ReadFault;

/// The listed row of this kind and digest.
pub(crate) fn listed_view<S: Alter>(
    alloc: Global,
    tx: &mut Transaction<'_, S>,
    kind: ListedKind,
    digest: Digest,
) -> Result<ListView, ReadFault>
    ensures same_reference { tx.new.conn.ghost_name ≡ tx.old.conn.ghost_name }
    ensures value { DoesInside S.Store tx.old.conn.now tx.new.conn.now result
        (λ view. ReadsTables (λ t. ShowsLists view t (listed_keys kind digest))) }
    ensures only { IfOk result (λ view. HoldsNoOther view (listed_keys kind digest)) }
    ensures kept { CommitsNothing S.Store tx.old.conn.now tx.new.conn.now }
    ensures survives { Spares S.Store tx.old.conn.now tx.new.conn.now }
{
    let listed = Digests::one(kind, &digest);
    rows_of(alloc, tx, listed, Digests::none(), &[])
}

/// The revoked row of this kind and digest.
pub(crate) fn revoked_view<S: Alter>(
    alloc: Global,
    tx: &mut Transaction<'_, S>,
    kind: ListedKind,
    digest: Digest,
) -> Result<ListView, ReadFault>
    ensures same_reference { tx.new.conn.ghost_name ≡ tx.old.conn.ghost_name }
    ensures value { DoesInside S.Store tx.old.conn.now tx.new.conn.now result
        (λ view. ReadsTables (λ t. ShowsLists view t (revoked_keys kind digest))) }
    ensures only { IfOk result (λ view. HoldsNoOther view (revoked_keys kind digest)) }
    ensures kept { CommitsNothing S.Store tx.old.conn.now tx.new.conn.now }
    ensures survives { Spares S.Store tx.old.conn.now tx.new.conn.now }
{
    let revoked = Digests::one(kind, &digest);
    rows_of(alloc, tx, Digests::none(), revoked, &[])
}

/// The rows that may bar an image: the revoked rows of these keys, and the level's rows of these
/// components' names.
fn barring_view<S: Alter>(
    alloc: Global,
    tx: &mut Transaction<'_, S>,
    revoked: Digests<'_>,
    named: &[Component],
) -> Result<ListView, ReadFault>
    ensures same_reference { tx.new.conn.ghost_name ≡ tx.old.conn.ghost_name }
    ensures value { DoesInside S.Store tx.old.conn.now tx.new.conn.now result
        (λ view. ReadsTables (λ t. ShowsLists view t
        (barring_keys (entry_keys revoked.entry) named.now))) }
    ensures only { IfOk result (λ view.
        HoldsNoOther view (barring_keys (entry_keys revoked.entry) named.now)) }
    ensures kept { CommitsNothing S.Store tx.old.conn.now tx.new.conn.now }
    ensures survives { Spares S.Store tx.old.conn.now tx.new.conn.now }
{
    rows_of(alloc, tx, Digests::none(), revoked, named)
}

/// The digests, ascending, each once, so that neighbours in a table are looked up one after
/// another. Takes memory for them.
fn in_order(alloc: Global, digests: &[Digest]) -> Result<Vec<Digest>, ReadFault>
    ensures arranged { IfOk result (λ ordered. IsArranged digests.now ordered.items) }
    ensures named { IfErr result (λ fault. fault ≡ ReadFault.NoMemory) }
{
    let Ok(mut ordered) = Vec::from_slice(alloc, digests) else {
        return Err(ReadFault::NoMemory);
    };
    arrange(&mut ordered);
    Ok(ordered)
}

/// The rows that an import names. A digest that it names twice is looked up once.
pub(crate) fn import_view<S: Alter>(
    alloc: Global,
    tx: &mut Transaction<'_, S>,
    import: &Import,
) -> Result<ListView, ReadFault>
    ensures same_reference { tx.new.conn.ghost_name ≡ tx.old.conn.ghost_name }
    ensures value { DoesInside S.Store tx.old.conn.now tx.new.conn.now result
        (λ view. ReadsTables (λ t. ShowsLists view t (import_keys import.now))) }
    ensures only { IfOk result (λ view. HoldsNoOther view (import_keys import.now)) }
    ensures kept { CommitsNothing S.Store tx.old.conn.now tx.new.conn.now }
    ensures survives { Spares S.Store tx.old.conn.now tx.new.conn.now }
{
    let images = in_order(alloc, import.digests().as_slice())?;
    let certificates = in_order(alloc, import.certificates().as_slice())?;
    let revoked = Digests {
        images: &images,
        certificates: &certificates,
    };
    let view = barring_view(alloc, tx, revoked, import.components().as_slice())?;
    Ok(view)
}

/// The rows that a submission of these facts names: revoked entries and components of the level.
pub(crate) fn submission_view<S: Alter>(
    alloc: Global,
    tx: &mut Transaction<'_, S>,
    facts: &Facts,
) -> Result<ListView, ReadFault>
    ensures same_reference { tx.new.conn.ghost_name ≡ tx.old.conn.ghost_name }
    ensures value { DoesInside S.Store tx.old.conn.now tx.new.conn.now result
        (λ view. ReadsTables (λ t. ShowsLists view t (submission_keys facts.now))) }
    ensures only { IfOk result (λ view. HoldsNoOther view (submission_keys facts.now)) }
    ensures kept { CommitsNothing S.Store tx.old.conn.now tx.new.conn.now }
    ensures survives { Spares S.Store tx.old.conn.now tx.new.conn.now }
{
    let digests = [facts.digest, facts.signing];
    let revoked = Digests {
        images: &digests,
        certificates: facts.carried.as_slice(),
    };
    barring_view(alloc, tx, revoked, facts.components.as_slice())
}

/// The rows of the lists that an image's facts name: the listed entry of its digest and those of
/// the certificates that it carries, the revocations of its two digests and of these certificates,
/// and the level's components that it names. Takes memory for them. Costs one keyed statement for
/// each. The digest is looked up whatever the facts name, so that only an open store gives Ok.
pub fn list_view<S: Alter>(
    alloc: Global,
    tx: &mut Transaction<'_, S>,
    facts: &Facts,
) -> Result<ListView, ReadFault>
    ensures same_reference { tx.new.conn.ghost_name ≡ tx.old.conn.ghost_name }
    ensures value { DoesInside S.Store tx.old.conn.now tx.new.conn.now result
        (λ view. ReadsTables (λ t. ShowsLists view t (keys_of facts.now))) }
    ensures only { IfOk result (λ view. HoldsNoOther view (keys_of facts.now)) }
    ensures inside { StaysInside S.Store tx.old.conn.now tx.new.conn.now result }
    ensures kept { CommitsNothing S.Store tx.old.conn.now tx.new.conn.now }
    ensures survives { Spares S.Store tx.old.conn.now tx.new.conn.now }
{
    let digests = [facts.digest, facts.signing];
    let carried = facts.carried.as_slice();
    let listed = Digests {
        images: slice::from_ref(&facts.digest),
        certificates: carried,
    };
    let revoked = Digests {
        images: &digests,
        certificates: carried,
    };
    rows_of(alloc, tx, listed, revoked, facts.components.as_slice())
}
