//! States of requests.

/// The state of a request.
#[derive(Clone, Copy, Debug, PartialEq, Eq)]
pub enum State {
    /// None of the others yet.
    Open,
    /// Two reviewers voted yes.
    Approved,
    /// A reviewer voted no.
    Rejected,
    /// Its submitter withdrew it.
    Withdrawn,
    /// A signed file was returned for it.
    Signed,
}
