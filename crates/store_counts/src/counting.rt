//! Counting, inside a transaction: each count visits every row of its table.
ghost use Rattle.std.specs.Prelude.{◌≡◌};
ghost use Rattle.store_counts.specs.Counts as spec;
ghost use Rattle.store_counts.specs.Parts.{CountEnded, CountWaiting};
ghost use Rattle.store_reads.specs.Reads.{ReadsTables};
ghost use Rattle.store_sql.specs.States.{DoesInside, CommitsNothing, Spares, StaysInside};

use crate::numbers::{Counts, KindCounts, ListCounts, RequestCounts};
use desk_types::{ListedKind, State};
use sqlite::{Alter, Transaction};
use store_reads::{Counted, ReadFault, count, own_row};

/// The numbers of requests that wait for votes, and for the signed file.
#[derive(Clone, Copy)]
struct Waiting {
    still_open: u64,
    approved: u64,
}

/// The numbers of requests that were rejected, withdrawn and signed.
#[derive(Clone, Copy)]
struct Ended {
    rejected: u64,
    withdrawn: u64,
    signed: u64,
}

/// Counts the requests that wait.
fn count_waiting<S: Alter>(tx: &mut Transaction<'_, S>) -> Result<Waiting, ReadFault>
    ensures same_reference { tx.new.conn.ghost_name ≡ tx.old.conn.ghost_name }
    ensures value { DoesInside S.Store tx.old.conn.now tx.new.conn.now result
        (λ n. ReadsTables (CountWaiting n)) }
    ensures inside { StaysInside S.Store tx.old.conn.now tx.new.conn.now result }
    ensures kept { CommitsNothing S.Store tx.old.conn.now tx.new.conn.now }
    ensures survives { Spares S.Store tx.old.conn.now tx.new.conn.now }
{
    let still_open = count(tx, Counted::RequestsIn(State::Open))?;
    let approved = count(tx, Counted::RequestsIn(State::Approved))?;
    Ok(Waiting {
        still_open,
        approved,
    })
}

/// Counts the requests that no longer wait.
fn count_ended<S: Alter>(tx: &mut Transaction<'_, S>) -> Result<Ended, ReadFault>
    ensures same_reference { tx.new.conn.ghost_name ≡ tx.old.conn.ghost_name }
    ensures value { DoesInside S.Store tx.old.conn.now tx.new.conn.now result
        (λ n. ReadsTables (CountEnded n)) }
    ensures inside { StaysInside S.Store tx.old.conn.now tx.new.conn.now result }
    ensures kept { CommitsNothing S.Store tx.old.conn.now tx.new.conn.now }
    ensures survives { Spares S.Store tx.old.conn.now tx.new.conn.now }
{
    let rejected = count(tx, Counted::RequestsIn(State::Rejected))?;
    let withdrawn = count(tx, Counted::RequestsIn(State::Withdrawn))?;
    let signed = count(tx, Counted::RequestsIn(State::Signed))?;
    Ok(Ended {
        rejected,
        withdrawn,
        signed,
    })
}

/// Counts the requests.
fn count_by_state<S: Alter>(tx: &mut Transaction<'_, S>) -> Result<RequestCounts, ReadFault>
    ensures same_reference { tx.new.conn.ghost_name ≡ tx.old.conn.ghost_name }
    ensures value { DoesInside S.Store tx.old.conn.now tx.new.conn.now result
        (λ n. ReadsTables (spec.CountRequests n)) }
    ensures inside { StaysInside S.Store tx.old.conn.now tx.new.conn.now result }
    ensures kept { CommitsNothing S.Store tx.old.conn.now tx.new.conn.now }
    ensures survives { Spares S.Store tx.old.conn.now tx.new.conn.now }
{
    let all = count(tx, Counted::Requests)?;
    let waiting = count_waiting(tx)?;
    let ended = count_ended(tx)?;
    Ok(RequestCounts {
        all,
        still_open: waiting.still_open,
        approved: waiting.approved,
        rejected: ended.rejected,
        withdrawn: ended.withdrawn,
        signed: ended.signed,
    })
}

/// Counts the listed entries of each kind.
fn count_entries<S: Alter>(tx: &mut Transaction<'_, S>) -> Result<KindCounts, ReadFault>
    ensures same_reference { tx.new.conn.ghost_name ≡ tx.old.conn.ghost_name }
    ensures value { DoesInside S.Store tx.old.conn.now tx.new.conn.now result
        (λ n. ReadsTables (spec.CountEntries n)) }
    ensures inside { StaysInside S.Store tx.old.conn.now tx.new.conn.now result }
    ensures kept { CommitsNothing S.Store tx.old.conn.now tx.new.conn.now }
    ensures survives { Spares S.Store tx.old.conn.now tx.new.conn.now }
{
    let digests = count(tx, Counted::ListedOf(ListedKind::Digest))?;
    let certificates = count(tx, Counted::ListedOf(ListedKind::Certificate))?;
    Ok(KindCounts {
        digests,
        certificates,
    })
}

/// Counts the revoked entries of each kind.
fn count_revoked<S: Alter>(tx: &mut Transaction<'_, S>) -> Result<KindCounts, ReadFault>
    ensures same_reference { tx.new.conn.ghost_name ≡ tx.old.conn.ghost_name }
    ensures value { DoesInside S.Store tx.old.conn.now tx.new.conn.now result
        (λ n. ReadsTables (spec.CountRevoked n)) }
    ensures inside { StaysInside S.Store tx.old.conn.now tx.new.conn.now result }
    ensures kept { CommitsNothing S.Store tx.old.conn.now tx.new.conn.now }
    ensures survives { Spares S.Store tx.old.conn.now tx.new.conn.now }
{
    let images = count(tx, Counted::RevokedDigests)?;
    let certificates = count(tx, Counted::RevokedCertificates)?;
    Ok(KindCounts {
        digests: images,
        certificates,
    })
}

/// Counts the listed and revoked entries, and the level.
fn count_lists<S: Alter>(tx: &mut Transaction<'_, S>) -> Result<ListCounts, ReadFault>
    ensures same_reference { tx.new.conn.ghost_name ≡ tx.old.conn.ghost_name }
    ensures value { DoesInside S.Store tx.old.conn.now tx.new.conn.now result
        (λ n. ReadsTables (spec.CountLists n)) }
    ensures inside { StaysInside S.Store tx.old.conn.now tx.new.conn.now result }
    ensures kept { CommitsNothing S.Store tx.old.conn.now tx.new.conn.now }
    ensures survives { Spares S.Store tx.old.conn.now tx.new.conn.now }
{
    let listed = count_entries(tx)?;
    let revoked = count_revoked(tx)?;
    let components = count(tx, Counted::Components)?;
    let own = own_row(tx)?;
    Ok(ListCounts {
        listed,
        revoked,
        components,
        stamp: own.stamp,
    })
}

/// All counts of a desk: thirteen, each of which visits a whole table.
///
/// `Row`: the desk's own row isn't one that a desk writes. `NoMemory`: memory was refused. `Store`:
/// the store failed.
pub fn counts<S: Alter>(tx: &mut Transaction<'_, S>) -> Result<Counts, ReadFault>
    ensures same_reference { tx.new.conn.ghost_name ≡ tx.old.conn.ghost_name }
    ensures value { DoesInside S.Store tx.old.conn.now tx.new.conn.now result
        (λ n. ReadsTables (spec.CountTables n)) }
    ensures inside { StaysInside S.Store tx.old.conn.now tx.new.conn.now result }
    ensures kept { CommitsNothing S.Store tx.old.conn.now tx.new.conn.now }
    ensures survives { Spares S.Store tx.old.conn.now tx.new.conn.now }
{
    let people = count(tx, Counted::People)?;
    let calls = count(tx, Counted::Calls)?;
    let requests = count_by_state(tx)?;
    let lists = count_lists(tx)?;
    Ok(Counts {
        people,
        calls,
        requests,
        lists,
    })
}
