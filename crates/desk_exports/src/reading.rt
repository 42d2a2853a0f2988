//! What a person can read of a desk.
use crate::published::Published;
use base::Digest;
use desk_types::{ProposalNumber, RequestNumber};

/// What a person asks to read of a desk. What the person is shown is `IsShownTo`
/// (specs/Readings.antt).
#[derive(Clone, Copy, Debug, PartialEq, Eq)]
pub enum Reading {
    /// The requests that the person is shown.
    Requests,
    /// Of them those with this number or a later one, at most 1,000.
    RequestsFrom(u64),
    /// Of them those that have this digest, at most the first 1,000: as the SHA-256 of the submitted
    /// or of the returned file, as an Authenticode digest of their images, or as that of a
    /// certificate that the submitted one carries.
    RequestsWith(Digest),
    /// One of the requests.
    Request(RequestNumber),
    /// The proposals of officers.
    Proposals,
    /// Of them those with this number or a later one, at most 1,000.
    ProposalsFrom(u64),
    /// One of the proposals, with all that it names.
    Proposal(ProposalNumber),
    /// What a Confirm of this proposal would do.
    Impact(ProposalNumber),
    /// The requests and proposals that wait for the person.
    Waiting,
    /// A number that changes whenever what the person may see of requests or proposals changed.
    Changes,
    /// One of the exports that everybody is shown.
    Export(Published),
    Report,
    /// The lines of the minutes from this number on, counted from 1, at most 1,000.
    Minutes(u64),
    People,
    /// The person's own name and role.
    Me,
}
