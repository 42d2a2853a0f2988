//! Proposals as they are shown.
ghost use Rattle.std.specs.Prelude.{◌≡◌, List};
ghost use Rattle.desk_types.specs.declared.proposal.Proposal.{Proposal};

use desk_types::Proposal;
use std::marker::Model;

/// Proposals as an officer is shown them, in their order. A contract sees the list of them.
#[derive(Debug, Drop)]
pub struct ShownProposals {
    proposals: Vec<Proposal>,
}

impl Model for ShownProposals {
    ghost Value = { List Proposal };

    ghost view = { λ s. s.proposals.items };
}

impl ShownProposals {
    /// These proposals.
    pub fn new(proposals: Vec<Proposal>) -> ShownProposals
        ensures { result ≡ proposals.items }
    {
        ShownProposals { proposals }
    }

    /// The proposals.
    pub fn as_slice(&self) -> &[Proposal]
        ensures { result.now ≡ self.now }
    {
        &self.proposals
    }
}
