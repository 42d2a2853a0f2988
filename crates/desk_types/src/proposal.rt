//! Proposals to revoke, and to raise the level.
use crate::{PersonName, ProposalNumber};

/// The kind of a proposal.
#[derive(Clone, Copy, Debug, PartialEq, Eq)]
pub enum ProposalKind {
    /// An image's digest.
    Digest,
    /// A certificate, by the digest of its TBSCertificate.
    Certificate,
    /// A generation of a component.
    Level,
    /// A whole import.
    Import,
}

/// The state of a proposal.
#[derive(Clone, Copy, Debug, PartialEq, Eq)]
pub enum ProposalState {
    /// Neither of the others yet.
    Open,
    /// A second officer confirmed it.
    Confirmed,
    /// An officer dropped it.
    Dropped,
}

/// The kind of an item of a proposal.
#[derive(Clone, Copy, Debug, PartialEq, Eq)]
pub enum ItemKind {
    /// An image's digest.
    Digest,
    /// A certificate, by the digest of its TBSCertificate.
    Certificate,
    /// A component with a generation.
    Component,
}

/// The outcome of a proposal.
#[derive(Clone, Copy, Debug, PartialEq, Eq)]
pub struct ProposalOutcome {
    pub proposal: ProposalNumber,
    pub state: ProposalState,
}

/// A proposal as a reader sees it: who proposed it, its state, and how many digests of images,
/// digests of certificates and components it names, repeats included.
#[derive(Debug, Drop)]
pub struct Proposal {
    pub number: ProposalNumber,
    pub officer: PersonName,
    pub state: ProposalState,
    pub digests: u64,
    pub certificates: u64,
    pub components: u64,
}
