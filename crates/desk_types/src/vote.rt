//! Votes of reviewers.

/// A reviewer's vote on a request.
#[derive(Clone, Copy, Debug, PartialEq, Eq)]
pub enum Vote {
    Yes,
    No,
}
