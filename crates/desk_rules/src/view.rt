//! Rows of the tables for a decision, and its changes.
use crate::list_view::ListView;
use desk_history::{Minute, ProposalRow, RequestRow, VoteRow, Write};
use desk_types::{Person, Reply};
use sbat::Stamp;

/// A table whose rows a limit of the desk counts, other than the table of calls.
#[derive(Clone, Copy, Debug, PartialEq, Eq)]
pub enum LimitedTable {
    People,
    Requests,
    Listed,
    RevokedDigests,
    RevokedCertificates,
    Components,
    Proposals,
}

/// The count of rows of each table that a desk's limits count.
#[derive(Clone, Copy, Debug, PartialEq, Eq)]
pub struct Sizes {
    pub people: u64,
    pub calls: u64,
    pub requests: u64,
    pub listed: u64,
    pub revoked_digests: u64,
    pub revoked_certificates: u64,
    pub components: u64,
    pub proposals: u64,
}

/// The rows for a decision on a call: those of the caller, of the caller's key and of all that the
/// command names, the votes on a request that it names, and, for a Confirm, those of all that its
/// proposal names. It may have others.
#[derive(Drop)]
pub struct View {
    /// The level's stamp.
    pub stamp: Stamp,
    /// The counts of rows of the tables.
    pub sizes: Sizes,
    pub people: Vec<Person>,
    pub calls: Vec<Minute>,
    pub requests: Vec<RequestRow>,
    pub votes: Vec<VoteRow>,
    pub proposals: Vec<ProposalRow>,
    pub lists: ListView,
}

/// The reply to a call, and the rows that it writes, in order. A repeated call writes none.
#[derive(Debug, Drop)]
pub struct Changes {
    pub reply: Reply,
    pub writes: Vec<Write>,
}
