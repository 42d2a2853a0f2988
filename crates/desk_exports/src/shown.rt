//! What a person is shown of a desk.
use crate::octets::Octets;
use crate::published::Published;
use crate::shown_people::ShownPeople;
use crate::shown_proposals::ShownProposals;
use desk_history::{ProposalRow, ShownImpact, ShownPerson};
use desk_types::{ProposalNumber, ShownRequest};

/// What a person is shown, each by the reading of its name, or of a part of it. An `L` holds the
/// requests, which may be written into it as they are read.
#[derive(Debug, Drop)]
pub enum Shown<L> {
    /// Ascending by number.
    Requests(L),
    Request(ShownRequest),
    /// Ascending by number.
    Proposals(ShownProposals),
    /// With all that it names.
    Proposal(ProposalRow),
    /// Of the proposal of this number.
    Impact(ProposalNumber, ShownImpact),
    /// What waits for the person, each ascending by number.
    Waiting(L, ShownProposals),
    /// The number that tells of changes.
    Changes(u64),
    /// Signature lists, or SBAT text.
    Export(Published, Octets),
    /// Fourteen lines of text.
    Report(Octets),
    /// Lines of the minutes.
    Minutes(Octets),
    /// Ascending by name.
    People(ShownPeople),
    /// Without the token.
    Me(ShownPerson),
}
