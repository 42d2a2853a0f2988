//! Replies to accepted calls.
use crate::{PersonName, ProposalNumber, RequestNumber, State};

/// Counts of the entries that were put into force, and of the entries of an import that were
/// skipped.
#[derive(Clone, Copy, Debug, PartialEq, Eq)]
pub struct Counts {
    /// Digests of images that weren't revoked before.
    pub digests: u64,
    /// Digests of certificates that weren't revoked before.
    pub certificates: u64,
    /// Components whose generation rose.
    pub components: u64,
    /// Entries skipped.
    pub passed: u64,
}

/// The state of a request after a review.
#[derive(Clone, Copy, Debug, PartialEq, Eq)]
pub struct Outcome {
    pub request: RequestNumber,
    pub state: State,
}

/// The changes that a confirmed proposal made.
#[derive(Clone, Copy, Debug, PartialEq, Eq)]
pub struct Confirmation {
    pub proposal: ProposalNumber,
    pub counts: Counts,
}

/// The desk's answer to a call that it accepts.
#[derive(Debug, Drop)]
pub enum Reply {
    Added(PersonName),
    Submitted(RequestNumber),
    Reviewed(Outcome),
    Withdrawn(RequestNumber),
    Returned(RequestNumber),
    Listed,
    Unlisted,
    Revoked,
    Raised,
    Imported(Counts),
    Proposed(ProposalNumber),
    Confirmed(Confirmation),
    Dropped(ProposalNumber),
    Explained(ProposalNumber),
}
