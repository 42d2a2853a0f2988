//! Room in the tables for the writes of a decision.
ghost use Rattle.std.specs.Prelude.{◌≡◌, count_by};
ghost use Rattle.desk_rules.specs.Room as spec;

use crate::view::{LimitedTable, Sizes};
use desk_history::{
    MOST_CALLS, MOST_LEVEL_COMPONENTS, MOST_LISTED, MOST_PEOPLE, MOST_PROPOSALS, MOST_REQUESTS,
    MOST_REVOKED_CERTIFICATES, MOST_REVOKED_DIGESTS, Write, is_same,
};
use desk_types::ListedKind;

/// True if a table of this size has room for these rows; if there are none, its size doesn't
/// matter.
fn fits(count: usize, size: u64, most: usize) -> bool
    ensures { result ≡ spec.fits count size most }
{
    count == 0 || (count <= most && size <= (most - count) as u64)
}

/// True if the write revokes a digest of this kind.
fn revokes(kind: ListedKind, write: &Write) -> bool
    ensures { result ≡ spec.revokes kind write.now }
{
    if let Write::Revoke(listing) = write {
        is_same(kind, listing.kind)
    } else {
        false
    }
}

/// True if the write inserts a row into the table.
fn puts(table: LimitedTable, write: &Write) -> bool
    ensures { result ≡ spec.puts table write.now }
{
    match table {
        LimitedTable::People => matches!(write, Write::Person(_)),
        LimitedTable::Requests => matches!(write, Write::Request(_)),
        LimitedTable::Listed => matches!(write, Write::List(_)),
        LimitedTable::RevokedDigests => revokes(ListedKind::Digest, write),
        LimitedTable::RevokedCertificates => revokes(ListedKind::Certificate, write),
        LimitedTable::Components => matches!(write, Write::Component(_)),
        LimitedTable::Proposals => matches!(write, Write::Propose(_)),
    }
}

/// The count of rows that the writes insert into the table.
pub fn count(table: LimitedTable, writes: &[Write]) -> usize
    ensures { result ≡ count_by (spec.puts table) writes.now }
{
    writes.iter().filter(|write| puts(table, write)).count()
}

/// True if tables of these sizes have room for the rows that the writes insert, and for the call's
/// own row.
pub(crate) fn has_room(sizes: &Sizes, writes: &[Write]) -> bool
    ensures { result ≡ spec.has_room sizes.now writes.now }
{
    let digests = count(LimitedTable::RevokedDigests, writes);
    let certificates = count(LimitedTable::RevokedCertificates, writes);
    let components = count(LimitedTable::Components, writes);
    fits(
        count(LimitedTable::People, writes),
        sizes.people,
        MOST_PEOPLE,
    ) & fits(
        count(LimitedTable::Requests, writes),
        sizes.requests,
        MOST_REQUESTS,
    ) & fits(
        count(LimitedTable::Proposals, writes),
        sizes.proposals,
        MOST_PROPOSALS,
    ) & fits(
        count(LimitedTable::Listed, writes),
        sizes.listed,
        MOST_LISTED,
    ) & fits(digests, sizes.revoked_digests, MOST_REVOKED_DIGESTS)
        & fits(
            certificates,
            sizes.revoked_certificates,
            MOST_REVOKED_CERTIFICATES,
        )
        & fits(components, sizes.components, MOST_LEVEL_COMPONENTS)
        & (sizes.calls < MOST_CALLS as u64)
}
